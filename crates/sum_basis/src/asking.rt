//! What a form would tell people who ask, each of whom may know the number of one row, her own.
ghost use Rattle.std.specs.Prelude.{◌≡◌, ◌<◌, ◌↔◌, map, All, IfOk, IsTrue};
ghost use Rattle.audit_types.specs.Rows.{IsRowsOf};
ghost use Rattle.audit_types.specs.Form.{set_row};
ghost use Rattle.sum_basis.specs.Asking.{SpansBeside, SpansOneBeside, TellsAsker, ForeseesAmong};
ghost use Rattle.sum_basis.specs.Growth.{ForeseesApart};
ghost use Rattle.audit_types.specs.Headcount.{shared_in};

use crate::Prospect;
use crate::basis::Basis;
use crate::beside::spans_with_one;
use crate::laws::ties_but;
use crate::told::Told;
use audit_types::{Askers, CountedRows, NoMemory, RowSet};

impl Basis {
    /// Whether the row of the set lies in the span with the unit row of some row that isn't in the second set, and the set has another row.
    pub fn spans_beside(&self, set: &RowSet, several: &RowSet) -> Result<bool, NoMemory>
        requires set { set.now.n ≡ self.now.n }
        requires several { several.now.n ≡ self.now.n }
        ensures { IfOk result (λ told. IsTrue told ↔ SpansBeside self.now several.now.list set.now.list) }
    {
        spans_with_one(self.form(), set, several)
    }

    // Whether the row of one of these sets lies in the span with the unit row of some row that isn't in the set, and has another row.
    fn spans_one_beside(&self, several: &RowSet, apart: &[RowSet]) -> Result<bool, NoMemory>
        requires several { several.now.n ≡ self.now.n }
        requires same_n { All (λ s. s.n ≡ self.now.n) apart.now }
        ensures { IfOk result (λ told. IsTrue told ↔ SpansOneBeside self.now several.now.list (map (λ s. s.list) apart.now)) }
    {
        for set in apart {
            if self.spans_beside(set, several)? {
                return Ok(true);
            }
        }
        Ok(false)
    }

    // Whether the form tells somebody who knows the number of a row that isn't in the second set.
    fn tells_asker(
        &self,
        beside: &RowSet,
        several: &RowSet,
        apart: &[RowSet],
    ) -> Result<bool, NoMemory>
        requires beside { beside.now.n ≡ self.now.n }
        requires several { several.now.n ≡ self.now.n }
        requires same_n { All (λ s. s.n ≡ self.now.n) apart.now }
        ensures { IfOk result (λ told. IsTrue told ↔ TellsAsker self.now beside.now.list several.now.list (map (λ s. s.list) apart.now)) }
    {
        // What every form is: its rows are a form.
        let _ = self.form().columns();
        ties_but();
        if self.shows_tie_but(beside, several) {
            return Ok(true);
        }
        self.spans_one_beside(several, apart)
    }

    // What is told of the form with the row of a set if people in the table ask, from what is told of it whoever asks.
    fn told_inside(
        &self,
        told: Prospect,
        rows: &RowSet,
        people: &CountedRows,
        apart: &[RowSet],
    ) -> Result<Prospect, NoMemory>
        requires n { rows.now.n ≡ self.now.n }
        requires people { people.now.n ≡ self.now.n }
        requires inside { 0 < people.now.people.own }
        requires same_n { All (λ s. s.n ≡ self.now.n) apart.now }
        requires told { ForeseesApart self.now (set_row self.now.n rows.now.list) (shared_in people.now.people) (map (λ s. s.list) apart.now) told }
        ensures { IfOk result (λ prospect. ForeseesAmong self.now (set_row self.now.n rows.now.list) people.now.people (map (λ s. s.list) apart.now) prospect) }
    {
        let Prospect::Open = told else {
            return Ok(told);
        };
        let beside = people.beside();
        let several = people.several();
        match self.surely_told(rows, beside, several, apart)? {
            Told::Nothing => return Ok(Prospect::Open),
            Told::Something => return Ok(Prospect::Fixing),
            Told::Unsure => {}
        }
        // What every form is: its rows are a form, and narrow.
        let _ = self.form().columns();
        let mut grown = self.copy()?;
        let _ = grown.extend(rows)?;
        if grown.tells_asker(beside, several, apart)? {
            Ok(Prospect::Fixing)
        } else {
            Ok(Prospect::Open)
        }
    }

    /// Tells what the form would become with the row of a set, if these people ask: whether it would tell one of them the number of a row that
    /// is guarded from her, or the total of one of these sets.
    pub fn prospect_among(
        &self,
        rows: &RowSet,
        people: &CountedRows,
        apart: &[RowSet],
    ) -> Result<Prospect, NoMemory>
        requires n { rows.now.n ≡ self.now.n }
        requires people { people.now.n ≡ self.now.n }
        requires apart { All (IsRowsOf self.now.n) apart.now }
        ensures { IfOk result (λ prospect. ForeseesAmong self.now (set_row self.now.n rows.now.list) people.now.people (map (λ s. s.list) apart.now) prospect) }
    {
        let told = self.prospect_apart(rows, people.shared(), apart)?;
        match people.askers() {
            Askers::Outside => Ok(told),
            Askers::Inside => self.told_inside(told, rows, people, apart),
        }
    }

    // Keeps the keys of the form's columns if nothing is told of it yet, so that they are asked first.
    fn keep_keys_if_open(&mut self, told: Prospect) -> Result<(), NoMemory>
        ensures { self.new ≡ self.old }
    {
        match told {
            Prospect::Open => self.keep_keys(),
            _ => Ok(()),
        }
    }

    /// The same, which keeps what it found of the set, until the form changes.
    pub fn weigh_among(
        &mut self,
        rows: &RowSet,
        people: &CountedRows,
        apart: &[RowSet],
    ) -> Result<Prospect, NoMemory>
        requires n { rows.now.n ≡ self.old.n }
        requires people { people.now.n ≡ self.old.n }
        requires apart { All (IsRowsOf self.old.n) apart.now }
        ensures foresees { IfOk result (λ prospect. ForeseesAmong self.old (set_row self.old.n rows.now.list) people.now.people (map (λ s. s.list) apart.now) prospect) }
        ensures same { self.new ≡ self.old }
    {
        let told = self.weigh_apart(rows, people.shared(), apart)?;
        match people.askers() {
            Askers::Outside => Ok(told),
            Askers::Inside => {
                self.keep_keys_if_open(told)?;
                self.told_inside(told, rows, people, apart)
            }
        }
    }
}
