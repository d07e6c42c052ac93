//! The names in a table map whose columns are not read.

/// Where an event of a table map has the length of the schema's name (MySQL Source Documentation, `Table_map_event`).
const NAMES: usize = 27;

/// The schema and the table of a table map.
pub(crate) fn names_in_map(event: &[u8]) -> Option<(&[u8], &[u8])> {
    let [length, rest @ ..] = event.get(NAMES..)? else {
        return None;
    };
    let (schema, rest) = rest.split_at_checked(usize::from(*length))?;
    let [_, length, rest @ ..] = rest else {
        return None;
    };
    let (table, _) = rest.split_at_checked(usize::from(*length))?;
    Some((schema, table))
}
