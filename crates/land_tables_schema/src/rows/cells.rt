//! Cells of a row, as parameters of a statement.
ghost use Rattle.std.specs.Prelude.{◌≡◌, ◌<◌, ◌^◌, IfSome};
ghost use Rattle.std.specs.Option.{option_map};
ghost use Rattle.land_tables_schema.specs.Rows.Versions.{flag, whole};
ghost use Rattle.sqlite_typed.specs.Columns.{or_null};
ghost use Rattle.sqlite_value.specs.Value.{owned};
ghost use Rattle.sqlite_value.specs.declared.value.Value.TheVariants.{Int, Text};

use sqlite::types::ValueRef;

/// Returns a number as a cell. Numbers below 2^63 fit.
pub fn of_number(number: u64) -> ValueRef<'static>
    requires { number < 2 ^ 63 }
    ensures { owned result ≡ whole number }
{
    ValueRef::Int(number as i64)
}

/// Returns a moment as a cell, in Unix milliseconds.
pub fn of_moment(moment: i64) -> ValueRef<'static>
    ensures { owned result ≡ Int moment }
{
    ValueRef::Int(moment)
}

/// A text.
pub fn of_text(text: &str) -> ValueRef<'_>
    ensures { owned result ≡ Text text.now }
{
    ValueRef::Text(text.as_bytes())
}

/// Returns a truth value as a cell: 1 or 0.
pub fn of_flag(is_so: bool) -> ValueRef<'static>
    ensures { owned result ≡ flag is_so }
{
    ValueRef::Int(if is_so { 1 } else { 0 })
}

/// Returns a number below 2^63 as a cell, or NULL if there is none.
pub fn of_number_or_null(number: Option<u64>) -> ValueRef<'static>
    requires { IfSome number (λ n. n < 2 ^ 63) }
    ensures { owned result ≡ or_null whole number }
{
    match number {
        Some(number) => of_number(number),
        None => ValueRef::Null,
    }
}

/// Returns a text as a cell, or NULL if there is none.
pub fn of_text_or_null(text: Option<&str>) -> ValueRef<'_>
    ensures { owned result ≡ or_null Text (option_map (λ t. t.now) text.entry) }
{
    match text {
        Some(text) => of_text(text),
        None => ValueRef::Null,
    }
}
