//! What befalls an object at a call.
use crate::failures::Failures;
use crate::keys::Keys;

/// What befalls an object at a call.
#[derive(Clone, Copy)]
pub enum Fault {
    /// This call of the bench fails, and all after it.
    Stop,
    /// This call of the bench alone fails.
    Fail,
    /// This call of the spare fails, and all after it.
    SpareStop,
    /// This call of the spare alone fails.
    SpareFail,
    /// This read of the schema fails.
    Schema,
    /// This read of the table fails.
    Table,
    /// This read of the input fails.
    Input,
}

impl Fault {
    pub(crate) fn of(each: Keys) -> Option<Fault> {
        match each.text("fault")? {
            "stop" => Some(Fault::Stop),
            "fail" => Some(Fault::Fail),
            "spare_stop" => Some(Fault::SpareStop),
            "spare_fail" => Some(Fault::SpareFail),
            "schema" => Some(Fault::Schema),
            "table" => Some(Fault::Table),
            "input" => Some(Fault::Input),
            _ => None,
        }
    }

    /// What fails if it befalls the call of this number.
    pub fn at(self, call: u64) -> Failures {
        let mut failures = Failures::default();
        let failing = match self {
            Fault::Stop => &mut failures.stop,
            Fault::Fail => &mut failures.bench,
            Fault::SpareStop => &mut failures.spare_stop,
            Fault::SpareFail => &mut failures.spare,
            Fault::Schema => &mut failures.schema,
            Fault::Table => &mut failures.table,
            Fault::Input => &mut failures.input,
        };
        *failing = Some(call);
        failures
    }
}
