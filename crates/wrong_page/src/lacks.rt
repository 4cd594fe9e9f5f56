//! Wrong lists of the classes that lack logs.
ghost use Rattle.std.specs.Prelude.{◌≡◌};
ghost use Rattle.wrong_page.specs.Wanted.{IsFirstShort};

use buck_page_figures::{Figures, lacking};
use std::alloc::Global;

/// A class that lacks logs is left out.
pub fn class_left_out(alloc: Global, figures: &Figures<'_>)
    requires { IsFirstShort figures.now.instruction.now figures.now.targets.value.items figures.now.counts.items }
{
    let Ok(found) = lacking(alloc, figures) else {
        return;
    };
    let right = found.len();
    let wrong = 0;
    prove!(right != wrong);
}

/// A class is named twice.
pub fn class_named_twice(alloc: Global, figures: &Figures<'_>) {
    let Ok(found) = lacking(alloc, figures) else {
        return;
    };
    let Some(first) = found.get(0).copied() else {
        return;
    };
    let Some(second) = found.get(1).copied() else {
        return;
    };
    if first.assortment != second.assortment {
        return;
    }
    let right = second.class;
    let wrong = first.class;
    prove!(right != wrong);
}

/// Of two classes of an assortment the one that lacks less stands first.
pub fn least_first(alloc: Global, figures: &Figures<'_>) {
    let Ok(found) = lacking(alloc, figures) else {
        return;
    };
    let Some(first) = found.get(0) else {
        return;
    };
    let Some(second) = found.get(1) else {
        return;
    };
    if first.targets != second.targets {
        return;
    }
    let right = first.tenths() < second.tenths();
    let wrong = true;
    prove!(right != wrong);
}

/// A class of which as many logs were cut as are wanted is listed as lacking.
pub fn enough_told_as_lacking(alloc: Global, figures: &Figures<'_>)
    requires { figures.now.counts.items ≡ figures.now.targets.value.items }
{
    let Ok(found) = lacking(alloc, figures) else {
        return;
    };
    let right = found.is_empty();
    let wrong = false;
    prove!(right != wrong);
}
