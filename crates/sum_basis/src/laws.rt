//! The laws of reduced forms. Each function computes nothing: its contract is the law.
ghost use Rattle.sum_basis.specs.Laws.{EveryRowSpaceHasAForm, FormsAreUnique, SetsHaveOneForm, SpanKeepsForm, OneMoreSet, NarrowOrWide};
ghost use Rattle.sum_basis.specs.Ties.{TiesByForm, TiesByFormBut};
ghost use Rattle.sum_basis.specs.Reach.{FreeColumnsHaveDirections};
ghost use Rattle.sum_basis.specs.Points.{LikeRowsHaveOneKey};

/// Every list of rows has a reduced form.
pub fn every_row_space_has_a_form()
    ensures { EveryRowSpaceHasAForm }
{}

/// A list of rows has no two reduced forms.
pub fn forms_are_unique()
    ensures { FormsAreUnique }
{}

/// Sets have one reduced form.
pub fn sets_have_one_form()
    ensures { SetsHaveOneForm }
{}

/// A row in the span leaves the form as it is.
pub fn span_keeps_form()
    ensures { SpanKeepsForm }
{}

/// The form of the form's rows with the row of one set more is that of the sets with it.
pub fn one_more_set()
    ensures { OneMoreSet }
{}

/// The form of any sets is narrow or wide, and never both.
pub fn narrow_or_wide()
    ensures { NarrowOrWide }
{}

/// The span of a form holds a row, not 0, with at most two entries exactly if the form has a row with at most one entry beside its pivot, or
/// two rows that are multiples of each other but for their pivots.
pub fn ties()
    ensures { TiesByForm }
{}

/// The same of a column that isn't among some, and of another one that isn't among others.
pub fn ties_but()
    ensures { TiesByFormBut }
{}

/// Each free column of a form has a direction.
pub fn directions()
    ensures { FreeColumnsHaveDirections }
{}

/// A row that lies in the span with the unit row of a column has the column's key: columns with different keys are tied by nothing.
pub fn points()
    ensures { LikeRowsHaveOneKey }
{}
