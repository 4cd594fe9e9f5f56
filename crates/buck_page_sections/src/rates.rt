//! Means and parts of a whole, as several sections say them.
ghost use Rattle.std.specs.Prelude.{◌<◌, ◌^◌};

use buck_page_figures::Sums;
use buck_page_text::{Fixed, Known, half_up};

/// A mean with so many decimals, if it is of anything.
pub(crate) fn mean(sum: u128, number: u128, places: u8) -> Known
    requires { (sum < 2 ^ 125) × (number < 2 ^ 125) }
{
    if number == 0 {
        return Known(None);
    }
    Known(Some(Fixed::of(half_up(sum, number), places)))
}

/// How long a log is in metres with two decimals, in the mean, given their length in mm, if there are any.
pub fn mean_log(logged: u128, logs: u128) -> Known
    requires { (logged < 2 ^ 125) × (logs < 2 ^ 121) }
{
    mean(logged, 10 * logs, 2)
}

/// A part of a whole in percent with one decimal, if there is a whole.
pub(crate) fn share_of(part: u128, whole: u128) -> Known
    requires { (part < 2 ^ 112) × (whole < 2 ^ 125) }
{
    mean(1000 * part, whole, 1)
}

/// A cost in percent of a worth with two decimals, if there is a worth.
pub(crate) fn rate_of(cost: u128, worth: u128) -> Known
    requires { (cost < 2 ^ 110) × (worth < 2 ^ 125) }
{
    mean(10_000 * cost, worth, 2)
}

/// What steering cost of what the stems are worth unsteered, in percent, if they are worth anything.
pub(crate) fn steering_rate(sums: &Sums) -> Known {
    rate_of(sums.cost(), sums.best)
}

/// The length that neither a log nor its trim took, in percent of the stems', if there are any.
pub(crate) fn length_left(sums: &Sums) -> Known {
    share_of(sums.left(), sums.length)
}
