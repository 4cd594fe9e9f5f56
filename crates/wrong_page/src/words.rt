//! Numbers rounded or printed wrongly.
use buck_page_text::{change_of, difference_of, half_up, letter, percent_at, permille, tens};

/// A half is rounded down.
pub fn half_rounded_down() {
    let right = half_up(5, 2);
    let wrong = 2;
    prove!(right != wrong);
}

/// The rest of a share is cut off.
pub fn share_cut_off() {
    let right = permille(2, 3);
    let wrong = 666;
    prove!(right != wrong);
}

/// Tens are rounded up if they are not a half.
pub fn tens_rounded_up() {
    let right = tens(14);
    let wrong = 2;
    prove!(right != wrong);
}

/// What lies below has no sign.
pub fn difference_without_its_sign() {
    let right = difference_of(7, 3).below;
    let wrong = false;
    prove!(right != wrong);
}

/// A price that fell is shown as one that rose.
pub fn fall_told_as_a_rise() {
    let right = change_of(300, 400).below;
    let wrong = false;
    prove!(right != wrong);
}

/// A change is counted in parts of the price now, not of its base.
pub fn change_of_the_price_now() {
    let right = change_of(500, 400).size;
    let wrong = 200;
    prove!(right != wrong);
}

/// A change that prints 0 is shown as a fall.
pub fn no_change_told_as_a_fall() {
    let right = change_of(9999, 10000).below;
    let wrong = true;
    prove!(right != wrong);
}

/// A place in a drawing is rounded up.
pub fn place_rounded_up() {
    let right = percent_at(2, 3).0;
    let wrong = 6667;
    prove!(right != wrong);
}

/// The letters begin at B.
pub fn letters_from_b() {
    let right = letter(0);
    let wrong = 'B';
    prove!(right != wrong);
}
