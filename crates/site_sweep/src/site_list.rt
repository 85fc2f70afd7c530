ghost use Rattle.std.specs.Prelude.{◌≡◌, ◌<◌, ◌≤◌, length, IfOk};
ghost use Rattle.std.specs.List.{list_any};
ghost use Rattle.hyper_model.specs.declared.TheConstants.{MOST_ATOMS};
ghost use Rattle.site_sweep.specs.Sites as spec;

use hyper_model::Value;
use std::alloc::{AllocError, Global};
use std::marker::Model;

/// An atom at which the unit was placed.
#[derive(Clone, Copy, Debug, PartialEq, Eq)]
pub struct Site {
    /// The atom, counted from 0.
    pub atom: u16,
    /// The low end of the measure with the unit there, in units of its last printed digit.
    pub lo: u64,
    /// The high end.
    pub hi: u64,
    /// Whether no other site is sure to be better.
    pub kept: bool,
}

/// The sites of a unit, one for each atom in order.
#[derive(Debug, Drop)]
pub struct Sites {
    items: Vec<Site>,
}

impl Model for Sites {
    ghost use Rattle.std.specs.Prelude.{List};
    ghost use Rattle.site_sweep.specs.declared.site_list.Site as declared_site;

    ghost Value = { List declared_site.Site };

    ghost view = { λ a. a.items.items };
}

impl Sites {
    ghost use Rattle.std.specs.Prelude.{◌≡◌, ◌<◌, ◌≤◌, [], length, IfOk, Some, slice_get, IsTrue, ◌↔◌};
    ghost use Rattle.hyper_model.specs.declared.TheConstants.{MOST_ATOMS};
    ghost use Rattle.site_sweep.specs.Sites as spec;

    /// The sites whose measures have these ends, the first of them at atom 0.
    pub(crate) fn of(alloc: Global, values: &[Value]) -> Result<Sites, AllocError>
        requires { length values.now ≤ MOST_ATOMS }
        ensures { IfOk result (λ sites. sites ≡ spec.sites_of values.now) }
    {
        let mut items = Vec::new(alloc);
        for k in 0..values.len() {
            items.push(site_at(values, k))?;
        }
        Ok(Sites { items })
    }

    /// How many there are.
    pub fn len(&self) -> usize
        ensures { result ≡ length self.now }
    {
        self.items.len()
    }

    /// Whether there are none.
    pub fn is_empty(&self) -> bool
        ensures { IsTrue result ↔ (self.now ≡ []) }
    {
        self.items.is_empty()
    }

    /// How many of them are dropped.
    pub fn dropped(&self) -> usize
        ensures { result ≡ spec.number_dropped self.now }
    {
        self.items.iter().filter(|site| !site.kept).count()
    }

    /// The site at this atom, counted from 0.
    pub fn get(&self, atom: usize) -> Site
        requires { atom < length self.now }
        ensures { slice_get self.now atom ≡ Some result }
    {
        self.items[atom]
    }
}

/// The site at atom k.
fn site_at(values: &[Value], k: usize) -> Site
    requires place { k < length values.now }
    requires few { length values.now ≤ MOST_ATOMS }
    ensures { result ≡ spec.site_at values.now k }
{
    let value = values[k];
    let beaten = is_beaten(values, value);
    Site {
        atom: k as u16,
        lo: value.lo,
        hi: value.hi,
        kept: !beaten,
    }
}

/// Whether some measure is less, for certain, than the one with these ends.
fn is_beaten(values: &[Value], value: Value) -> bool
    ensures { result ≡ spec.is_beaten values.now value }
{
    values.iter().any(|other| other.hi < value.lo)
}
