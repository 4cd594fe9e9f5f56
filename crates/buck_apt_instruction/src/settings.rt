//! Numbers that a run puts in the place of an instruction's own.
ghost use Rattle.std.specs.Prelude.{◌≡◌, IfSome, IfNone};
ghost use Rattle.buck_apt_instruction.specs.Settings.{IsSettings, own_numbers};

use crate::slots::{LIMIT, PERIOD};
use std::marker::Model;

/// Numbers that a run puts in the place of an instruction's own: the period, 1 to 1,000 stems, and the limit, at most
/// 1,000 per mille. If one isn't given, the instruction's own stays.
#[derive(Debug, Drop)]
pub struct Settings {
    period: Option<u32>,
    limit: Option<u32>,
}

impl Model for Settings {
    ghost use Rattle.buck_apt_instruction.specs.Settings.{SettingsParts, IsSettings};

    ghost Value = { SettingsParts };

    ghost view = { λ s. record {
      period = s.period;
      limit = s.limit;
    } };

    ghost invariant = { λ s. IsSettings (view s) };
}

impl Settings {
    /// The instruction's own numbers.
    pub fn own() -> Settings
        ensures { result ≡ own_numbers }
    {
        Settings {
            period: None,
            limit: None,
        }
    }

    /// This period in stems and this limit in per mille, or the instruction's own for a `None`. It is `None` if the
    /// period isn't from 1 to 1,000 or the limit is above 1,000.
    pub fn of(period: Option<u32>, limit: Option<u32>) -> Option<Settings>
        ensures some { IfSome result (λ s. s ≡ record { period = period; limit = limit }) }
        ensures valid { IfSome result IsSettings }
        ensures none { IfNone result (IsSettings (record { period = period; limit = limit }) → ⊥) }
    {
        if period.is_some_and(|p| p < PERIOD.low || p > PERIOD.high) {
            return None;
        }
        if limit.is_some_and(|l| l > LIMIT.high) {
            return None;
        }
        Some(Settings { period, limit })
    }

    /// The period, if one is given.
    pub(crate) fn period(&self) -> Option<u32>
        ensures period { result ≡ self.now.period }
        ensures valid { IsSettings self.now }
    {
        self.period
    }

    /// The limit, if one is given.
    pub(crate) fn limit(&self) -> Option<u32>
        ensures limit { result ≡ self.now.limit }
        ensures valid { IsSettings self.now }
    {
        self.limit
    }
}
