//! The expected rows of the tables after the scenario, as `sqlite3` prints them.
use crate::lines::lines;
use crate::stop::{Stop, expect};
use sqlite::{Alter, Connection};
use std::alloc::Global;

/// A query, and its expected rows as lines.
pub struct Look(pub &'static str, pub &'static str);

/// The queries after `STEPS`.
const QUERIES: &[Look] = &[
    Look("SELECT id, version FROM edition", "1|2|\n"),
    Look(
        "SELECT stamp, next FROM moments ORDER BY stamp",
        "0|2|\n\
        1000|3|\n\
        1001|4|\n\
        1002|5|\n\
        1003|5|\n\
        1004|6|\n\
        1005|6|\n\
        1006|7|\n\
        1007|7|\n\
        1008|8|\n\
        1009|14|\n\
        1010|16|\n\
        1011|17|\n\
        1012|19|\n\
        1013|19|\n\
        1014|21|\n\
        1015|22|\n\
        1016|24|\n\
        1017|30|\n",
    ),
    Look(
        "SELECT * FROM party ORDER BY number",
        "1|Land Office|nonNaturalPerson|0|4102444800000|\n\
        2|Anna|naturalPerson|1000|4102444800000|\n\
        3|Ben|naturalPerson|1001|4102444800000|\n\
        4|Bank, \"North\"|nonNaturalPerson|1002|4102444800000|\n\
        5|Nora|naturalPerson|1004|4102444800000|\n\
        6|Sam|naturalPerson|1006|4102444800000|\n\
        7|Anna and Ben|group|1008|4102444800000|\n",
    ),
    Look(
        "SELECT * FROM role ORDER BY party, since",
        "1|stateAdministrator|0|4102444800000|\n\
        2|citizen|1000|4102444800000|\n\
        3|citizen|1001|4102444800000|\n\
        4|citizen|1002|4102444800000|\n\
        4|bank|1003|4102444800000|\n\
        5|citizen|1004|4102444800000|\n\
        5|notary|1005|4102444800000|\n\
        6|citizen|1006|4102444800000|\n\
        6|certifiedSurveyor|1007|4102444800000|\n",
    ),
    Look(
        "SELECT * FROM member ORDER BY party",
        "7|2|1|3|1008|4102444800000|\n\
        7|3|2|3|1008|4102444800000|\n",
    ),
    Look(
        "SELECT * FROM unit ORDER BY number",
        "9|Garden|1|1009|4102444800000|\n\
        25|Orchard|1|1017|4102444800000|\n",
    ),
    Look(
        "SELECT * FROM parcel ORDER BY number",
        "10|9|12|POLYGON ((0 0, 10000 0, 10000 10000, 0 10000, 0 0))|8|1009|1017|\n\
        24|9|12a|POLYGON ((0 0, 5000 0, 5000 10000, 0 10000, 0 0))|22|1017|4102444800000|\n\
        26|25|12b|POLYGON ((5000 0, 10000 0, 10000 10000, 5000 10000, 5000 0))|22|1017|4102444800000|\n",
    ),
    Look(
        "SELECT * FROM rrr ORDER BY number, since",
        "11|9|2|ownership|1|4|-|-|-|-|8|1009|1013|\n\
        12|9|7|ownership|3|4|-|-|-|-|8|1009|1013|\n\
        12|9|7|ownership|1|1|-|-|-|-|17|1013|1015|\n\
        13|9|6|lease|1|1|-|-|-|-|8|1009|4102444800000|\n\
        16|9|4|mortgage|-|-|2500000|EUR|1|-|14|1011|4102444800000|\n\
        21|9|3|ownership|1|1|-|-|-|-|19|1015|4102444800000|\n\
        27|25|6|lease|1|1|-|-|-|-|8|1017|4102444800000|\n\
        28|25|4|mortgage|-|-|2500000|EUR|1|-|14|1017|4102444800000|\n\
        29|25|3|ownership|1|1|-|-|-|-|19|1017|4102444800000|\n",
    ),
    Look(
        "SELECT * FROM source ORDER BY number",
        "8|administrative|Deed 1|1009|4102444800000|\n\
        14|administrative|Loan 1|1010|4102444800000|\n\
        17|administrative|Deed 2|1012|4102444800000|\n\
        19|administrative|Deed 3|1014|4102444800000|\n\
        22|spatial|Plan 1|1016|4102444800000|\n",
    ),
    Look(
        "SELECT number, lodger, reference, source, lodged, act, state, since, until FROM mutation ORDER BY number, since",
        "15|4|M1|14|1010|mortgage|lodged|1010|1011|\n\
        15|4|M1|14|1010|mortgage|approved|1011|4102444800000|\n\
        18|5|T1|17|1012|transfer|lodged|1012|1013|\n\
        18|5|T1|17|1012|transfer|approved|1013|4102444800000|\n\
        20|5|T2|19|1014|transfer|lodged|1014|1015|\n\
        20|5|T2|19|1014|transfer|approved|1015|4102444800000|\n\
        23|6|S1|22|1016|subdivision|lodged|1016|1017|\n\
        23|6|S1|22|1016|subdivision|approved|1017|4102444800000|\n",
    ),
    Look(
        "SELECT content FROM mutation WHERE until = 4102444800000 ORDER BY number",
        "{\"amount\":2500000,\"creditor\":4,\"currency\":\"EUR\",\"unit\":9}|\n\
        {\"receiver\":7,\"right\":11,\"share\":\"1/4\",\"unit\":9}|\n\
        {\"receiver\":3,\"right\":12,\"share\":\"1/1\",\"unit\":9}|\n\
        {\"first\":{\"label\":\"12a\",\"outline\":\"POLYGON ((0 0, 5000 0, 5000 10000, 0 10000, 0 0))\"},\"parcel\":10,\"rest\":[{\"label\":\"12b\",\"outline\":\"POLYGON ((5000 0, 10000 0, 10000 10000, 5000 10000, 5000 0))\",\"unit\":\"Orchard\"}],\"unit\":9}|\n",
    ),
    Look(
        "SELECT * FROM names ORDER BY mutation",
        "15|9|1010|4102444800000|\n\
        18|9|1012|4102444800000|\n\
        20|9|1014|4102444800000|\n\
        23|9|1016|4102444800000|\n",
    ),
    // the holders in the garden before the quarter was sold, and the effect of its approval
    Look(
        "SELECT rrr.number, rrr.class, rrr.num, rrr.den, party.name
           FROM rrr JOIN party ON party.number = rrr.party
          WHERE rrr.unit = 9
            AND rrr.since <= 1012 AND 1012 < rrr.until
            AND party.since <= 1012 AND 1012 < party.until
          ORDER BY rrr.number",
        "11|ownership|1|4|Anna|\n\
        12|ownership|3|4|Anna and Ben|\n\
        13|lease|1|1|Sam|\n\
        16|mortgage|-|-|Bank, \"North\"|\n",
    ),
    Look("SELECT number FROM rrr WHERE since = 1013", "12|\n"),
    Look(
        "SELECT number FROM rrr WHERE until = 1013 ORDER BY number",
        "11|\n12|\n",
    ),
];

/// The queries after `MORE`: the rows that changed.
const QUERIES_AFTER_MORE: &[Look] = &[
    Look(
        "SELECT stamp, next FROM moments WHERE stamp > 1016 ORDER BY stamp",
        "1017|30|\n\
        1018|32|\n\
        1019|33|\n\
        1020|35|\n\
        1021|35|\n\
        1022|35|\n\
        1023|35|\n\
        1024|37|\n\
        1025|37|\n\
        1026|39|\n\
        1027|39|\n",
    ),
    Look(
        "SELECT * FROM member ORDER BY since, party",
        "7|2|1|3|1008|1022|\n\
        7|3|2|3|1008|1022|\n\
        7|2|1|2|1022|4102444800000|\n\
        7|6|1|2|1022|4102444800000|\n",
    ),
    Look(
        "SELECT * FROM role WHERE party = 5 ORDER BY since",
        "5|citizen|1004|4102444800000|\n\
        5|notary|1005|1023|\n",
    ),
    Look(
        "SELECT number, since, until FROM unit ORDER BY number",
        "9|1009|4102444800000|\n\
        25|1017|1019|\n",
    ),
    Look(
        "SELECT number, unit, since, until FROM parcel ORDER BY number",
        "10|9|1009|1017|\n\
        24|9|1017|1019|\n\
        26|25|1017|1019|\n\
        32|9|1019|4102444800000|\n",
    ),
    Look(
        "SELECT number, since, until, words FROM rrr WHERE number > 12 ORDER BY number",
        "13|1009|4102444800000|-|\n\
        16|1011|1027|-|\n\
        21|1015|4102444800000|-|\n\
        27|1017|1019|-|\n\
        28|1017|1019|-|\n\
        29|1017|1019|-|\n\
        34|1020|1021|No well|\n",
    ),
    Look(
        "SELECT number, state, since, until FROM mutation WHERE number > 30 ORDER BY number, since",
        "31|lodged|1018|1019|\n\
        31|approved|1019|4102444800000|\n\
        36|lodged|1024|1025|\n\
        36|refused|1025|4102444800000|\n\
        38|lodged|1026|1027|\n\
        38|approved|1027|4102444800000|\n",
    ),
    Look(
        "SELECT * FROM names WHERE mutation > 23 ORDER BY mutation, unit",
        "31|9|1018|4102444800000|\n\
        31|25|1018|4102444800000|\n\
        36|9|1024|4102444800000|\n\
        38|9|1026|4102444800000|\n",
    ),
];

/// Checks that a query returns its expected rows.
fn gives<S: Alter>(alloc: Global, conn: &mut Connection<S>, look: &Look) -> Result<bool, Stop> {
    let found = lines(alloc, conn, look.0)?;
    Ok(found.as_str() == look.1)
}

/// Checks that each query returns its expected rows.
pub fn look_at<S: Alter>(
    alloc: Global,
    conn: &mut Connection<S>,
    looks: &[Look],
) -> Result<(), Stop> {
    for (place, look) in looks.iter().enumerate() {
        expect(gives(alloc, conn, look)?, "look", place)?;
    }
    Ok(())
}

/// Checks the rows after `STEPS`.
pub fn expect_rows_after_steps<S: Alter>(
    alloc: Global,
    conn: &mut Connection<S>,
) -> Result<(), Stop> {
    look_at(alloc, conn, QUERIES)
}

/// Checks the rows that `MORE` changed.
pub fn expect_rows_after_more<S: Alter>(
    alloc: Global,
    conn: &mut Connection<S>,
) -> Result<(), Stop> {
    look_at(alloc, conn, QUERIES_AFTER_MORE)
}
