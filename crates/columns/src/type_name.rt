//! The names of types.

ghost use Rattle.std.specs.Prelude.{◌≡◌, IfSome, Some, find};
ghost use Rattle.std.specs.Str.{bytes_eq};
ghost use Rattle.columns.specs.TypeName.{name_text};

use std::fmt;

/// The name of a type, as the server writes it: aliases, as INTEGER and NUMERIC, are resolved there.
#[derive(Clone, Copy, Debug, PartialEq, Eq)]
pub enum TypeName {
    Tinyint,
    Smallint,
    Mediumint,
    Int,
    Bigint,
    Decimal,
    Float,
    Double,
    Bit,
    Year,
    Date,
    Time,
    Datetime,
    Timestamp,
    Char,
    Varchar,
    Binary,
    Varbinary,
    Tinytext,
    Text,
    Mediumtext,
    Longtext,
    Tinyblob,
    Blob,
    Mediumblob,
    Longblob,
    Json,
    Geometry,
    Point,
    Linestring,
    Polygon,
    Multipoint,
    Multilinestring,
    Multipolygon,
    Geomcollection,
    Geometrycollection,
    Vector,
}

/// Every name.
const NAMES: [TypeName; 37] = [
    TypeName::Tinyint,
    TypeName::Smallint,
    TypeName::Mediumint,
    TypeName::Int,
    TypeName::Bigint,
    TypeName::Decimal,
    TypeName::Float,
    TypeName::Double,
    TypeName::Bit,
    TypeName::Year,
    TypeName::Date,
    TypeName::Time,
    TypeName::Datetime,
    TypeName::Timestamp,
    TypeName::Char,
    TypeName::Varchar,
    TypeName::Binary,
    TypeName::Varbinary,
    TypeName::Tinytext,
    TypeName::Text,
    TypeName::Mediumtext,
    TypeName::Longtext,
    TypeName::Tinyblob,
    TypeName::Blob,
    TypeName::Mediumblob,
    TypeName::Longblob,
    TypeName::Json,
    TypeName::Geometry,
    TypeName::Point,
    TypeName::Linestring,
    TypeName::Polygon,
    TypeName::Multipoint,
    TypeName::Multilinestring,
    TypeName::Multipolygon,
    TypeName::Geomcollection,
    TypeName::Geometrycollection,
    TypeName::Vector,
];

impl TypeName {
    /// The name in lower case.
    pub fn as_str(self) -> &'static str
        ensures { result.now ≡ name_text self }
    {
        match self {
            TypeName::Tinyint => "tinyint",
            TypeName::Smallint => "smallint",
            TypeName::Mediumint => "mediumint",
            TypeName::Int => "int",
            TypeName::Bigint => "bigint",
            TypeName::Decimal => "decimal",
            TypeName::Float => "float",
            TypeName::Double => "double",
            TypeName::Bit => "bit",
            TypeName::Year => "year",
            TypeName::Date => "date",
            TypeName::Time => "time",
            TypeName::Datetime => "datetime",
            TypeName::Timestamp => "timestamp",
            TypeName::Char => "char",
            TypeName::Varchar => "varchar",
            TypeName::Binary => "binary",
            TypeName::Varbinary => "varbinary",
            TypeName::Tinytext => "tinytext",
            TypeName::Text => "text",
            TypeName::Mediumtext => "mediumtext",
            TypeName::Longtext => "longtext",
            TypeName::Tinyblob => "tinyblob",
            TypeName::Blob => "blob",
            TypeName::Mediumblob => "mediumblob",
            TypeName::Longblob => "longblob",
            TypeName::Json => "json",
            TypeName::Geometry => "geometry",
            TypeName::Point => "point",
            TypeName::Linestring => "linestring",
            TypeName::Polygon => "polygon",
            TypeName::Multipoint => "multipoint",
            TypeName::Multilinestring => "multilinestring",
            TypeName::Multipolygon => "multipolygon",
            TypeName::Geomcollection => "geomcollection",
            TypeName::Geometrycollection => "geometrycollection",
            TypeName::Vector => "vector",
        }
    }

    /// The type of this name, in lower case.
    pub(crate) fn find(word: &[u8]) -> Option<TypeName>
        ensures found { IfSome result (λ name. name_text name ≡ word.now) }
        ensures only { (name : TypeName) → name_text name ≡ word.now → result ≡ Some name }
    {
        find_among(&NAMES, word)
    }
}

/// The first of the names that is this word.
fn find_among(names: &[TypeName], word: &[u8]) -> Option<TypeName>
    ensures first { result ≡ find (λ name. bytes_eq (name_text name) word.now) names.now }
    ensures found { IfSome result (λ name. name_text name ≡ word.now) }
{
    names
        .iter()
        .copied()
        .find(|name| name.as_str().as_bytes() == word)
}

/// Writes the name in lower case. The only error is the writer's.
impl fmt::Display for TypeName {
    ghost output = { λ name. Some (name_text name) };

    fn fmt<W: fmt::Write>(&self, f: &mut fmt::Formatter<W>) -> fmt::Result {
        f.write_str(self.as_str())
    }
}
