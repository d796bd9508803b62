//! Applications that are worth a look.
ghost use Rattle.std.specs.Prelude.{true, false, ◌≡◌, ◌↔◌, ◌<◌, ◌≤◌, ◌+◌, IfOk, IsSome};

use music_base::{AppId, NoMemory};
use std::alloc::Global;
use std::marker::Model;

/// A stack of applications that are worth a look, each once. Contracts see how many wait, and nothing rests on which.
#[derive(Drop)]
pub struct Waiting {
    apps: Vec<AppId>,
    waits: Vec<bool>,
}

impl Model for Waiting {
    ghost use Rattle.std.specs.Prelude.{ℕ, length};

    ghost Value = { ℕ };

    ghost view = { λ a. length a.apps.items };
}

impl Waiting {
    /// Each of so many applications.
    pub fn of_all(alloc: Global, count: u32) -> Result<Waiting, NoMemory> {
        let mut waiting = Waiting {
            apps: Vec::new(alloc),
            waits: Vec::new(alloc),
        };
        waiting.waits.resize(count as usize, false)?;
        for app in 0..count {
            waiting.add(AppId(app))?;
        }
        Ok(waiting)
    }

    /// The application to look at, if one waits.
    pub fn last(&self) -> Option<AppId>
        ensures { IsSome result ↔ (0 < self.now) }
    {
        self.apps.last().copied()
    }

    /// Takes the last one off, and says whether there was one.
    pub fn drop_last(&mut self) -> bool
        ensures fewer { result ≡ true → self.new + 1 ≡ self.old }
        ensures none { result ≡ false → (self.old ≡ 0) × (self.new ≡ 0) }
    {
        match self.apps.pop() {
            Some(app) => {
                if let Some(waits) = self.waits.get_mut(app.0 as usize) {
                    *waits = false;
                }
                true
            }
            None => false,
        }
    }

    /// Puts an application on top, where it does not wait yet.
    pub fn add(&mut self, app: AppId) -> Result<(), NoMemory>
        ensures { IfOk result (λ _. self.new ≤ self.old + 1) }
    {
        if let Some(waits) = self.waits.get_mut(app.0 as usize) {
            if !*waits {
                *waits = true;
                self.apps.push(app)?;
            }
        }
        Ok(())
    }
}
