// The starred small files of document 01 and a file with sharings, and these with single bytes changed, held against the
// definitions.
#![tactic(auto)]

ghost use Rattle.std.specs.Prelude.{map, ◌≡◌, length};
ghost use Rattle.cases.specs.Table.{Case, table};
ghost use Rattle.cases.specs.Damaged.{damaged_table};
ghost use Rattle.cases.specs.Reported.{report_table};

// The number of rows of the table. In every row the definitions give the reply beside it.
pub fn rows() -> usize
    ensures all { result ≡ length table }
    ensures answered { map (λ (c : Case). c.actual) table ≡ map (λ (c : Case). c.expected) table }
{
    38
}

// The number of rows of the table of changed bytes. In every row the definitions give the answer beside it, and where it was met.
pub fn damaged_rows() -> usize
    ensures all { result ≡ length damaged_table }
    ensures answered { map (λ (c : Case). c.actual) damaged_table ≡ map (λ (c : Case). c.expected) damaged_table }
{
    69
}

// The number of rows of the table of reports. In every row the definitions give the report beside it.
pub fn report_rows() -> usize
    ensures all { result ≡ length report_table }
    ensures answered { map (λ (c : Case). c.actual) report_table ≡ map (λ (c : Case). c.expected) report_table }
{
    18
}
