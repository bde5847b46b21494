// The companies that share the keepers: the first byte of a label says whose it is.
ghost use Rattle.std.specs.Prelude.{◌≡◌, [], ◌∷◌, ◌≤◌, length, leb};
ghost use Rattle.rows.specs.Sizes.{most_rows, table_bytes};
ghost use Rattle.rules.specs.Companies.{most_of_one, company, belongs, company_rows};

use rows::ROW;

// The first company's labels have a first byte below this.
const BORDER: u8 = 128;

// A company that has so many rows gets no new one.
const MOST_OF_ONE: usize = 31;

// Whether a label of this first byte belongs to the company, true for the first.
#[tactic(auto, unfolding(rules::specs::Companies::company, rules::specs::Companies::belongs))]
fn is_theirs(byte: u8, first: bool) -> bool
    ensures { result ≡ belongs (byte ∷ []) first }
{
    (byte < BORDER) == first
}

// How many of the first rows belong to the company.
fn count_theirs(table: &[u8], count: usize, first: bool) -> usize
    requires { (count ≤ most_rows) × (length table.now ≡ table_bytes) }
    ensures { result ≡ company_rows count table.now first }
{
    (0..count)
        .filter(|&i| is_theirs(table[ROW * i], first))
        .count()
}

// Whether the label's company has the rows already that it may get.
#[tactic(auto, unfolding(rules::specs::Companies::company))]
pub fn is_company_full(table: &[u8], count: usize, label: [u8; 16]) -> bool
    requires { (count ≤ most_rows) × (length table.now ≡ table_bytes) }
    ensures { result ≡ leb most_of_one (company_rows count table.now (company label)) }
{
    MOST_OF_ONE <= count_theirs(table, count, label[0] < BORDER)
}
