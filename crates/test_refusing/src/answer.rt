/// Whether a call answered as it should, or was refused. `None` where neither is so.
pub fn answered<T: PartialEq>(found: &T, wanted: &T, refused: &T) -> Option<bool> {
    if found == wanted {
        return Some(true);
    }
    (found == refused).then_some(false)
}
