//! The shape of a table's secret part: how many rows it has, and what each secret column answers.
ghost use Rattle.std.specs.Prelude.{◌≡◌, ◌<◌};
ghost use Rattle.audit_types.specs.Shapes.{columns, is_least, kind_at, IsShape};

/// What a secret column answers: sums and averages, or maxima.
#[derive(Clone, Copy, Debug, PartialEq, Eq)]
pub enum Kind {
    Sum,
    Max,
}

/// The number of rows, and a kind byte for each secret column: 1 for sums, 2 for maxima, 3 for minima, which are maxima of
/// the negated numbers, and 0 after the last column.
#[derive(Clone, Copy, Debug, PartialEq, Eq)]
pub struct Shape {
    pub rows: u16,
    pub kinds: [u8; 8],
}

impl Shape {
    /// The number of secret columns.
    pub fn columns(&self) -> u8
        ensures { result ≡ columns self.now }
    {
        self.kinds.iter().filter(|kind| **kind > 0).count() as u8
    }

    /// What a secret column answers.
    pub fn kind(&self, column: u8) -> Kind
        requires valid { IsShape self.now }
        requires column { column < columns self.now }
        ensures { result ≡ kind_at self.now column }
    {
        match self.kinds[column as usize] {
            1 => Kind::Sum,
            _ => Kind::Max,
        }
    }

    /// Whether a secret column's numbers are kept negated, so that its maxima are minima of the table's.
    pub fn is_least(&self, column: u8) -> bool
        requires valid { IsShape self.now }
        requires column { column < columns self.now }
        ensures { result ≡ is_least self.now column }
    {
        self.kinds[column as usize] == 3
    }
}
