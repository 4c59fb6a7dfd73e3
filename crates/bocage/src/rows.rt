//! Alternatives, and the nodes of whole rules that they have.
ghost use Rattle.std.specs.Prelude.{◌≡◌, ◌<◌, ◌≤◌, ◌==◌, length, position, slice_index_or, slice_get, map, Some};
ghost use Rattle.forest_parts.specs.Lists.{between};
ghost use Rattle.bocage.specs.Rows.{cause_told, cause_of, IsCauseWithin, no_alternative};

/// The cause of an alternative: what the last part is. Nodes of whole rules are in the declared order of their rules.
#[derive(Clone, Copy)]
pub enum Cause<'f> {
    /// a terminal's edge
    Edge,
    /// a symbol that spans nothing
    Nothing,
    /// the nodes of whole rules
    Wholes(&'f [u32]),
}

/// A cause as it is kept: where it is whole rules, their nodes stand from `first` up to `end`.
#[derive(Clone, Copy, Default)]
pub enum CauseRow {
    #[default]
    Edge,
    Nothing,
    Wholes { first: u32, end: u32 },
}

/// An alternative as it is kept: where the last part begins, the node of the parts before it, and the cause.
#[derive(Clone, Copy, Default)]
pub struct AlternativeRow {
    pub start: u32,
    pub predecessor: Option<u32>,
    pub cause: CauseRow,
}

/// A row, by its number.
pub fn alternative_row(rows: &[AlternativeRow], k: usize) -> AlternativeRow
    requires { k < length rows.now }
    ensures { result ≡ slice_index_or rows.now k no_alternative }
{
    rows[k]
}

/// Where the row stands whose last part begins there, if there is one.
pub fn row_from(rows: &[AlternativeRow], start: u32) -> Option<usize>
    ensures { result ≡ position (λ row. row.start == start) rows.now }
{
    rows.iter().position(|row| row.start == start)
}

/// The alternatives of a node.
pub fn rows_at<'a>(table: &[&'a [AlternativeRow]], node: usize) -> &'a [AlternativeRow]
    requires { node < length table.now }
    ensures { slice_get (map (λ r. r.now) table.now) node ≡ Some result.now }
{
    table[node]
}

// Some of the nodes of whole rules.
fn wholes_between(wholes: &[u32], first: u32, end: u32) -> &[u32]
    requires order { first ≤ end }
    requires bound { end ≤ length wholes.now }
    ensures { result.now ≡ between first end wholes.now }
{
    &wholes[first as usize..end as usize]
}

/// The cause of a row.
pub fn cause_at(row: AlternativeRow, wholes: &[u32]) -> Cause<'_>
    requires { IsCauseWithin wholes.now row.cause }
    ensures { cause_told result ≡ cause_of wholes.now row.cause }
{
    match row.cause {
        CauseRow::Edge => Cause::Edge,
        CauseRow::Nothing => Cause::Nothing,
        CauseRow::Wholes { first, end } => Cause::Wholes(wholes_between(wholes, first, end)),
    }
}
