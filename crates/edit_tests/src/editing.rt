// Random edits of the files of a site.
ghost use Rattle.std.specs.Prelude.{◌≡◌, true};
ghost use Rattle.site_dates.specs.Moment.{IsMoment};
ghost use Rattle.site_script.specs.Line.{is_moment};

use crate::building::SETTINGS;
use crate::dice::Dice;
use crate::forms::{chosen, form_at, form_count};
use site_base::SitePath;
use site_session::Session;
use source_tree::{Held, MemorySource};
use std::alloc::Global;

/// A site that is edited: its files in a session, and beside it.
#[derive(Drop)]
pub(crate) struct Edited {
    site: &'static str,
    pub(crate) dice: Dice,
    pub(crate) session: Session,
    pub(crate) held: Held,
    pub(crate) month: u64,
    /// The files that last had no fault.
    pub(crate) sound: MemorySource,
    pub(crate) has_fault: bool,
}

/// The middle of one of the first months of 2024, in seconds from 1970.
pub(crate) fn moment_of(month: u64) -> i64
    ensures moment { IsMoment result }
    ensures test { is_moment result ≡ true }
{
    match month {
        0 => 1_705_276_800,
        1 => 1_707_955_200,
        2 => 1_710_460_800,
        _ => 1_713_139_200,
    }
}

impl Edited {
    /// A site that each form was put into three times.
    pub(crate) fn new(
        alloc: Global,
        site: &'static str,
        seed: u64,
        sound: MemorySource,
    ) -> Option<Edited> {
        let mut made = Edited {
            site,
            dice: Dice::new(seed),
            session: Session::open(alloc, SETTINGS, moment_of(3)),
            held: Held::new(alloc),
            month: 3,
            sound,
            has_fault: false,
        };
        match made.put_forms(alloc) {
            Some(()) => Some(made),
            None => None,
        }
    }

    fn put_forms(&mut self, alloc: Global) -> Option<()> {
        for form in 0..form_count(self.site) {
            self.put_form(alloc, form)?;
            self.put_form(alloc, form)?;
            self.put_form(alloc, form)?;
        }
        Some(())
    }

    /// Up to five edits, or none. Where there is a fault, the files come back at times that last had none.
    pub(crate) fn edit(&mut self, alloc: Global) -> Option<()> {
        if self.has_fault && self.dice.one_in(2) {
            return self.mend(alloc);
        }
        for _edit in 0..self.dice.below(6) {
            self.edit_once(alloc)?;
        }
        Some(())
    }

    fn edit_once(&mut self, alloc: Global) -> Option<()> {
        let form = self.dice.below(form_count(self.site));
        match self.dice.below(16) {
            0 => self.delete_any(alloc),
            1 | 2 => self.rename(alloc, form),
            3 => self.go_to_month(),
            _ => self.put_form(alloc, form),
        }
    }

    fn mend(&mut self, alloc: Global) -> Option<()> {
        let is_held = self.held.scan(alloc, &mut self.sound).is_ok();
        done(is_held && self.session.scan(alloc, &mut self.sound).is_ok())
    }

    fn go_to_month(&mut self) -> Option<()> {
        self.month = self.dice.below(4);
        self.session.set_moment(moment_of(self.month));
        Some(())
    }

    fn put_form(&mut self, alloc: Global, form: u64) -> Option<()> {
        let (path, text) = form_at(self.site, form)?;
        let path = chosen(alloc, &mut self.dice, path)?;
        let text = chosen(alloc, &mut self.dice, text)?;
        self.put(alloc, path.as_str(), text.as_bytes())
    }

    fn put(&mut self, alloc: Global, path: &str, bytes: &[u8]) -> Option<()> {
        let path = SitePath::read(alloc, path).ok()?;
        let copy = path.copy(alloc).ok()?;
        let is_held = self.held.put(copy, bytes.to_vec(alloc).ok()?).is_ok();
        done(is_held == self.session.put(path, bytes.to_vec(alloc).ok()?).is_ok())
    }

    fn delete(&mut self, path: &SitePath) -> Option<()> {
        done(self.held.delete(path) == self.session.delete(path))
    }

    fn delete_any(&mut self, alloc: Global) -> Option<()> {
        let place = self.dice.below(u64::from(self.held.len()));
        match path_at(alloc, &self.held, place) {
            Some(path) => self.delete(&path),
            None => Some(()),
        }
    }

    // Gives a file another path of its form.
    fn rename(&mut self, alloc: Global, form: u64) -> Option<()> {
        let (path, _) = form_at(self.site, form)?;
        let old = chosen(alloc, &mut self.dice, path)?;
        let new = chosen(alloc, &mut self.dice, path)?;
        let old = SitePath::read(alloc, old.as_str()).ok()?;
        match bytes_at(alloc, &self.held, &old) {
            Some(bytes) => {
                self.delete(&old)?;
                self.put(alloc, new.as_str(), bytes.as_slice())
            }
            None => Some(()),
        }
    }
}

fn done(is_done: bool) -> Option<()> {
    if is_done { Some(()) } else { None }
}

fn path_at(alloc: Global, held: &Held, wanted: u64) -> Option<SitePath> {
    for place in 0..held.len() {
        if u64::from(place) == wanted {
            return held.at(place).0.copy(alloc).ok();
        }
    }
    None
}

fn bytes_at(alloc: Global, held: &Held, path: &SitePath) -> Option<Vec<u8>> {
    held.get(path)?.to_vec(alloc).ok()
}
