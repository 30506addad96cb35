// How often the calls answered what.
use items::Added;
use std::fmt;

#[derive(Default, Drop)]
pub struct Answers {
    put: u32,
    already: u32,
    full: u32,
    removed: u32,
    found: u32,
}

impl Answers {
    pub fn count_added(&mut self, added: Added) {
        match added {
            Added::Put => self.put = self.put.saturating_add(1),
            Added::Held => self.already = self.already.saturating_add(1),
            Added::Full => self.full = self.full.saturating_add(1),
        }
    }

    pub fn count_removed(&mut self, removed: bool) {
        if removed {
            self.removed = self.removed.saturating_add(1);
        }
    }

    pub fn count_found(&mut self, found: bool) {
        if found {
            self.found = self.found.saturating_add(1);
        }
    }
}

impl fmt::Display for Answers {
    fn fmt<W: fmt::Write>(&self, f: &mut fmt::Formatter<W>) -> fmt::Result {
        let put = self.put;
        let already = self.already;
        let full = self.full;
        let removed = self.removed;
        let found = self.found;
        write!(
            f,
            "{put} put in, {already} held already, {full} full, {removed} removed, {found} found"
        )
    }
}
