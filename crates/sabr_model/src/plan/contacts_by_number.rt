//! Finding the index of a contact by its number.

ghost use Rattle.std.specs.Prelude.{◌≡◌, ◌<◌, ◌-◌, ◌==◌, None, MatchOption, IsTrue, map, find, length, slice_get};
ghost use Rattle.std.specs.Option.{option_copied};
ghost use Rattle.sabr_model.specs.plan.Plan.{rises_above, opens, IsPlaceOf};

use crate::contact::Contact;

/// Returns the index of the contact with this number. It is O(1) if no contact was deleted, and a binary search
/// otherwise.
pub fn place_of_number(contacts: &[Contact], number: u32) -> Option<usize>
    requires { IsTrue (rises_above 0 (map (λ c. c.number) contacts.now)) }
    ensures { IsPlaceOf contacts.now number result }
{
    let count = number as usize;
    if 0 < count && count <= contacts.len() && contacts[count - 1].number == number {
        return Some(count - 1);
    }
    searched_place(contacts, number)
}

/// Finds the index of the contact with this number by binary search.
fn searched_place(contacts: &[Contact], number: u32) -> Option<usize>
    requires { IsTrue (rises_above 0 (map (λ c. c.number) contacts.now)) }
    ensures { IsPlaceOf contacts.now number result }
{
    match contacts.binary_search_by_key(&number, |c| c.number) {
        Ok(place) => Some(place),
        Err(_) => None,
    }
}

/// Returns the index of the contact with this sender, receiver and start. It is a pass over the contacts.
pub fn place_of_opening(contacts: &[Contact], from: u64, to: u64, start: u64) -> Option<usize>
    ensures { MatchOption result (find (opens from to start) contacts.now ≡ None) (λ k. (k < length contacts.now) × (find (opens from to start) contacts.now ≡ slice_get contacts.now k)) }
{
    contacts.iter().position(|c| c.opens(from, to, start))
}

/// Finds the contact with this number, or returns `None`.
pub fn contact_of_number(contacts: &[Contact], number: u32) -> Option<&Contact>
    requires { IsTrue (rises_above 0 (map (λ c. c.number) contacts.now)) }
    ensures { option_copied result ≡ find (λ c. c.number == number) contacts.now }
{
    match place_of_number(contacts, number) {
        Some(place) => Some(&contacts[place]),
        None => None,
    }
}
