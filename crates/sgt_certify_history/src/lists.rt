//! Numbers by their place, where a place that isn't there has a zero.

/// The number at this place.
pub fn number_at(numbers: &[u32], place: usize) -> u32 {
    match numbers.get(place) {
        Some(number) => *number,
        None => 0,
    }
}

/// Puts the number at this place.
pub fn set_number(numbers: &mut [u32], place: usize, number: u32) {
    if let Some(old) = numbers.get_mut(place) {
        *old = number;
    }
}

/// One more at this place. Answers the number before.
pub fn count_up(numbers: &mut [u32], place: usize) -> u32 {
    match numbers.get_mut(place) {
        Some(number) => {
            let before = *number;
            *number = before.saturating_add(1);
            before
        }
        None => 0,
    }
}

/// One less at this place. Answers the number behind.
pub fn count_down(numbers: &mut [u32], place: usize) -> u32 {
    match numbers.get_mut(place) {
        Some(number) => {
            *number = number.saturating_sub(1);
            *number
        }
        None => 0,
    }
}

/// The number in four bytes, or the greatest one that fits.
pub fn short(number: usize) -> u32 {
    match u32::try_from(number) {
        Ok(short) => short,
        Err(_) => u32::MAX,
    }
}

/// Whether the mark at this place is set.
pub fn is_marked(marks: &[bool], place: usize) -> bool {
    match marks.get(place) {
        Some(mark) => *mark,
        None => false,
    }
}

/// Sets the mark at this place.
pub fn set_mark(marks: &mut [bool], place: usize) {
    if let Some(old) = marks.get_mut(place) {
        *old = true;
    }
}

/// Takes the mark at this place away.
pub fn clear_mark(marks: &mut [bool], place: usize) {
    if let Some(old) = marks.get_mut(place) {
        *old = false;
    }
}
