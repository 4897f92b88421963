//! What a column holds.
ghost use Rattle.std.specs.Prelude.{◌≡◌};
ghost use Rattle.schema_json.specs.Columns.{is_secret, is_count};

/// What a column holds. Text, numbers and counts are public; the columns of sums, maxima and minima are secret. A count is of the people
/// that a row stands for.
#[derive(Clone, Copy, Drop)]
pub enum Role {
    Text,
    Number,
    Count,
    Sum,
    Max,
    Min,
}

impl Role {
    /// Whether the column is secret.
    pub fn is_secret(self) -> bool
        ensures { result ≡ is_secret self }
    {
        match self {
            Role::Text | Role::Number | Role::Count => false,
            Role::Sum | Role::Max | Role::Min => true,
        }
    }

    /// Whether the column says how many people a row stands for.
    pub fn is_count(self) -> bool
        ensures { result ≡ is_count self }
    {
        matches!(self, Role::Count)
    }
}
