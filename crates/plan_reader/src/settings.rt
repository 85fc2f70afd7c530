ghost use Rattle.std.specs.Prelude.{◌≡◌, if◌then◌else◌, Some, None, OnOk};
ghost use Rattle.plan_text.specs.Steps.{Refuses};
ghost use Rattle.plan_reader.specs.Settings.{settings_of};
ghost use Rattle.plan_reader.specs.SettingValues as state;
ghost use Rattle.plan_reader.specs.SettingValues.{value_refusal, with_setting};

use crate::PlanRefusal;
use hyper_model::{Line, Rule};
use plan_text::{AddedKind, Record};

/// The settings of a plan.
#[derive(Clone, Copy, Debug)]
pub(crate) struct Settings {
    pub(crate) line: Line,
    pub(crate) rule: Rule,
    /// In seconds.
    pub(crate) period: u32,
}

/// The value that records give each setting.
#[derive(Clone, Copy, Debug)]
pub(crate) struct Values {
    version: Option<u32>,
    line: Option<Line>,
    rule: Option<Rule>,
    period: Option<u32>,
}

/// An hour, in seconds.
const HOUR: u32 = 3600;

/// The settings of the records: without a record for one, calls do not wait, the records give the lists, and the period
/// is an hour. A record for a setting that an earlier one has is refused, and a version that is neither 1 nor that of the
/// kind of record that can be added.
pub(crate) fn read_settings(records: &[Record], added: AddedKind) -> Result<Settings, PlanRefusal>
    ensures { result ≡ settings_of added records.now }
{
    let mut values = Values {
        version: None,
        line: None,
        rule: None,
        period: None,
    };
    for item in records {
        take_setting(&mut values, item, added)?;
    }
    Ok(settings_of_values(&values))
}

fn settings_of_values(values: &Values) -> Settings
    ensures { result ≡ state.settings_of_values values.now }
{
    Settings {
        line: values.line.unwrap_or(Line::Zero),
        rule: values.rule.unwrap_or(Rule::Given),
        period: values.period.unwrap_or(HOUR),
    }
}

fn take_setting(values: &mut Values, item: &Record, added: AddedKind) -> Result<(), PlanRefusal>
    ensures refusal { Refuses result (value_refusal added values.old item.now) }
    ensures taken { OnOk result (values.new ≡ with_setting values.old item.now) }
{
    match item {
        Record::Version { at, number } => {
            check_new(values.version.is_some(), *at)?;
            if *number != 1 && *number != added.version() {
                return Err(PlanRefusal::Version(u64::from(*at)));
            }
            values.version = Some(*number);
        }
        Record::LineIs { at, line } => {
            check_new(values.line.is_some(), *at)?;
            values.line = Some(*line);
        }
        Record::RuleIs { at, rule } => {
            check_new(values.rule.is_some(), *at)?;
            values.rule = Some(*rule);
        }
        Record::Period { at, seconds } => {
            check_new(values.period.is_some(), *at)?;
            values.period = Some(*seconds);
        }
        Record::UnitIs { .. }
        | Record::AtomIs { .. }
        | Record::Travel { .. }
        | Record::Located { .. }
        | Record::Prefer { .. }
        | Record::Group { .. }
        | Record::Crews { .. } => {}
    }
    Ok(())
}

fn check_new(is_given: bool, at: u32) -> Result<(), PlanRefusal>
    ensures { Refuses result (if is_given then Some (PlanRefusal.SettingTwice at) else None) }
{
    if is_given {
        return Err(PlanRefusal::SettingTwice(u64::from(at)));
    }
    Ok(())
}
