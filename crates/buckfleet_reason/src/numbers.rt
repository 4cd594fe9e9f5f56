//! Numbers that are none, out of range or out of order.
use crate::form::Seen;
use crate::item::Item;
use crate::rows::range_at;
use crate::shown::Quoted;
use crate::source::Said;
use buck_apt_instruction::slots::DIAMETERS;
use buck_record::{Count, Order};

/// Whether a byte can't stand in a name.
fn is_no_letter(byte: u8) -> bool {
    byte < 32 || byte == b'|' || byte == b'~' || byte == 127
}

/// The greatest number of an item, if it has one.
fn greatest(item: &Item<'_>) -> Option<u32> {
    item.words().filter_map(|word| word.number()).max()
}

/// The least number of an item, if it has one.
fn smallest(item: &Item<'_>) -> Option<u32> {
    item.words().map(|word| word.number().unwrap_or(0)).min()
}

impl Seen<'_> {
    /// Says that a word is no number.
    pub(crate) fn no_number(&self) -> Said {
        let Some(place) = self.item.wrong_place() else {
            return Ok(None);
        };
        let word = self.item.word(place);
        let text = Quoted(word.text);
        let most = u32::MAX;
        self.at(word.at).say(format_args!(
            "{text} at place {place}, expected digits alone, at most {most}"
        ))
    }

    /// Says that a name may not be what it is.
    fn wrong_name(&self, most: usize) -> Said {
        let name = self.item.rest();
        let length = name.len();
        if length < 1 || most < length {
            return self.place().say(format_args!(
                "{length} bytes, expected 1 to {most} bytes, none of them a control byte, | or ~"
            ));
        }
        match name.iter().find(|byte| is_no_letter(**byte)) {
            Some(byte) => self.place().say(format_args!(
                "byte {byte}, expected 1 to {most} bytes, none of them a control byte, | or ~"
            )),
            None => Ok(None),
        }
    }

    /// Says that a number is out of its range.
    pub(crate) fn out_of_range(&self) -> Said {
        if let Count::Text(most) = self.row.count {
            return self.wrong_name(most);
        }
        let mut place = 1usize;
        for word in self.item.words() {
            let (least, most) = range_at(self.row, place);
            let value = word.number().unwrap_or(0);
            if value < least || most < value {
                return self.at(word.at).say(format_args!(
                    "{value} at place {place}, expected {least} to {most}"
                ));
            }
            place = place.saturating_add(1);
        }
        Ok(None)
    }

    /// Says that a number isn't above those before it.
    pub(crate) fn out_of_order(&self) -> Said {
        match self.row.order {
            Order::Free | Order::First => Ok(None),
            Order::Rising(step) => self.fallen(step),
            Order::AboveLower => self.too_low(),
        }
    }

    /// Says that a number isn't above the one that stands so many before it, of the first and each so many after it.
    fn fallen(&self, step: usize) -> Said {
        let mut place = 1usize;
        let mut before: Option<u32> = None;
        for word in self.item.words() {
            if step > 0 && place.saturating_sub(1) % step == 0 {
                let value = word.number().unwrap_or(0);
                match before {
                    Some(before) if value <= before => {
                        return self.at(word.at).say(format_args!(
                            "{value} at place {place}, expected more than {before}"
                        ));
                    }
                    _ => before = Some(value),
                }
            }
            place = place.saturating_add(1);
        }
        Ok(None)
    }

    /// Says that a number isn't above all lower diameters of its assortment.
    fn too_low(&self) -> Said {
        let most = self.sibling(DIAMETERS).and_then(|lower| greatest(&lower));
        match (smallest(&self.item), most) {
            (Some(least), Some(most)) if least <= most => self.place().say(format_args!(
                "{least}, expected more than {most}, the greatest of lower diameters (915 1)"
            )),
            _ => Ok(None),
        }
    }
}
