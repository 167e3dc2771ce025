//! Sources (LA_Source): the documents on which records are based.
use crate::duplicate::Duplicate;
use crate::text::Text;
use std::alloc::{AllocError, Global};

/// The kind of a source.
#[derive(Clone, Copy, Debug, PartialEq, Eq)]
pub enum SourceKind {
    /// A deed, an order or another document (LA_AdministrativeSource).
    Administrative,
    /// A plan of a surveyor (LA_SpatialSource).
    Spatial,
}

/// The record of a source, stored by its number.
#[derive(Debug, Drop)]
pub struct SourceRecord {
    /// The kind.
    pub kind: SourceKind,
    /// The document's title: 1 to 200 characters.
    pub title: Text,
}

impl Duplicate for SourceRecord {
    fn copy(&self, alloc: Global) -> Result<SourceRecord, AllocError> {
        Ok(SourceRecord {
            kind: self.kind,
            title: self.title.copy(alloc)?,
        })
    }
}

/// A source: its record with its number.
#[derive(Debug, Drop)]
pub struct Source {
    /// Its number.
    pub number: u64,
    /// The kind.
    pub kind: SourceKind,
    /// The document's title.
    pub title: Text,
}

impl Duplicate for Source {
    fn copy(&self, alloc: Global) -> Result<Source, AllocError> {
        Ok(Source {
            number: self.number,
            kind: self.kind,
            title: self.title.copy(alloc)?,
        })
    }
}
