ghost use Rattle.std.specs.Prelude.{◌≡◌, ◌++◌, IsTrue, IfSome};
ghost use Rattle.std.specs.List.{list_all};
ghost use Rattle.std.specs.Option.{option_to_list};
ghost use Rattle.command_words.specs.Options as spec;
ghost use Rattle.command_words.specs.Options.{AreWorkers, once};

use hyper_model::Method;
use report_text::Widths;
use text_lines::number_of;

/// The most digits that an option's value has.
const MOST_VALUE_DIGITS: usize = 9;

/// The least width that can be asked for, since the ends of an interval are rounded outward.
const LEAST_WIDTH: u32 = 2;

/// The most workers.
const MOST_WORKERS: u32 = 16;

/// An option that has a value.
#[derive(Clone, Copy, Debug, PartialEq, Eq)]
pub(crate) enum Key {
    Width,
    TimeWidth,
    Workers,
    Method,
}

/// An option with its value.
#[derive(Clone, Copy, Debug, PartialEq, Eq)]
pub(crate) enum Setting {
    Width(u32),
    TimeWidth(u32),
    Workers(u32),
    Method(Method),
    Summary,
}

/// What the options of a command ask for together.
#[derive(Clone, Copy, Debug, PartialEq, Eq)]
pub(crate) struct Options {
    pub widths: Widths,
    pub workers: u32,
    pub summary: bool,
    pub method: Method,
}

impl Key {
    /// The option with this value: a number of one to nine digits, or the word of a method.
    pub fn setting(self, value: &str) -> Option<Setting>
        ensures { result ≡ spec.setting_in self value.now }
    {
        Some(match self {
            Key::Width => Setting::Width(value_of(value)?),
            Key::TimeWidth => Setting::TimeWidth(value_of(value)?),
            Key::Workers => Setting::Workers(value_of(value)?),
            Key::Method => Setting::Method(method_of(value)?),
        })
    }
}

fn value_of(text: &str) -> Option<u32>
    ensures { result ≡ spec.value_in text.now }
{
    Some(number_of(text, MOST_VALUE_DIGITS)? as u32)
}

fn method_of(text: &str) -> Option<Method>
    ensures { result ≡ spec.method_in text.now }
{
    match text {
        "elimination" => Some(Method::Elimination),
        "certificate" => Some(Method::Certificate),
        _ => None,
    }
}

impl Setting {
    /// Its number, if it is this option.
    fn number(self, key: Key) -> Option<u32>
        ensures { result ≡ spec.number_of key self }
    {
        match (key, self) {
            (Key::Width, Setting::Width(number)) => Some(number),
            (Key::TimeWidth, Setting::TimeWidth(number)) => Some(number),
            (Key::Workers, Setting::Workers(number)) => Some(number),
            _ => None,
        }
    }

    /// Its method, if it is that option.
    fn method(self) -> Option<Method>
        ensures { result ≡ spec.method_of self }
    {
        match self {
            Setting::Method(method) => Some(method),
            _ => None,
        }
    }
}

/// What options ask for together: nothing if one of them stands twice, or asks for what cannot be.
#[tactic(auto, unfolding(crate::specs::Options::options_of))]
pub(crate) fn options_of(settings: &[Setting]) -> Option<Options>
    ensures options { result ≡ spec.options_of settings.now }
    ensures workers { IfSome result (λ options. AreWorkers options.workers) }
{
    let share = number_once(settings, Key::Width)?;
    let time = number_once(settings, Key::TimeWidth)?;
    let workers = number_once(settings, Key::Workers)?.unwrap_or(1);
    let summary = summary_once(settings)?;
    let method = method_once(settings)?.unwrap_or(Method::Elimination);
    if !may_be_width(share) || !may_be_width(time) || !are_workers(workers) {
        return None;
    }
    Some(Options {
        widths: Widths { share, time },
        workers,
        summary,
        method,
    })
}

fn may_be_width(width: Option<u32>) -> bool
    ensures { result ≡ spec.may_be_width width }
{
    match width {
        Some(width) => width >= LEAST_WIDTH,
        None => true,
    }
}

fn are_workers(workers: u32) -> bool
    ensures workers { result ≡ spec.are_workers workers }
    ensures in_range { IsTrue result → AreWorkers workers }
{
    1 <= workers && workers <= MOST_WORKERS
}

fn number_once(settings: &[Setting], key: Key) -> Option<Option<u32>>
    ensures { result ≡ spec.number_once key settings.now }
{
    let mut found = None;
    for setting in settings {
        found = at_most_one(found, setting.number(key))?;
    }
    Some(found)
}

fn method_once(settings: &[Setting]) -> Option<Option<Method>>
    ensures { result ≡ spec.method_once settings.now }
{
    let mut found = None;
    for setting in settings {
        found = at_most_one(found, setting.method())?;
    }
    Some(found)
}

fn at_most_one<T: Copy>(first: Option<T>, second: Option<T>) -> Option<Option<T>>
    ensures { result ≡ once (option_to_list first ++ option_to_list second) }
{
    match (first, second) {
        (Some(_), Some(_)) => None,
        (Some(value), None) | (None, Some(value)) => Some(Some(value)),
        (None, None) => Some(None),
    }
}

fn summary_once(settings: &[Setting]) -> Option<bool>
    ensures { result ≡ spec.summary_once settings.now }
{
    let count = settings
        .iter()
        .filter(|setting| is_summary(**setting))
        .count();
    (count <= 1).then_some(count == 1)
}

fn is_summary(setting: Setting) -> bool
    ensures { result ≡ spec.is_summary setting }
{
    matches!(setting, Setting::Summary)
}

/// Whether all of the options say what a report shows and how wide its intervals may be, and none how it is found.
pub(crate) fn are_of_report(settings: &[Setting]) -> bool
    ensures { result ≡ list_all spec.is_of_report settings.now }
{
    settings.iter().all(|setting| is_of_report(*setting))
}

fn is_of_report(setting: Setting) -> bool
    ensures { result ≡ spec.is_of_report setting }
{
    match setting {
        Setting::Width(_) | Setting::TimeWidth(_) | Setting::Summary => true,
        Setting::Workers(_) | Setting::Method(_) => false,
    }
}
