ghost use Rattle.std.specs.Prelude.{◌≡◌, ◌<◌, ◌^◌, OnOk};
ghost use Rattle.device_state.specs.Changes.{changed};
ghost use Rattle.device_state.specs.State.{HasRoom, initial, one_further, one_more, plain, ticked};

use crate::changes::{Changes, put, put_entry};
use crate::entry::OpenEntry;
use crate::flight::Flight;
use crate::forms::purge;
use change_locks::Locks;
use entity_lists::EntityLists;
use field_ids::Draws;
use field_rows::Rows;
use field_text::{Mode, NoMemory, Text};
use form_store::FormStore;
use instance_store::InstanceStore;
use savepoints::Savepoints;
use std::alloc::Global;

/// How the device is set.
#[derive(Clone, Copy, Debug, PartialEq, Eq)]
pub struct Settings {
    pub mode: Mode,
    pub auto_send: bool,
}

/// What is counted.
#[derive(Clone, Copy, Debug, PartialEq, Eq)]
pub struct Counters {
    /// The number of entries.
    pub position: u64,
    /// The position of the last tick.
    pub last_tick: u64,
    /// The number that the next instance gets.
    pub next_instance: u64,
    /// The number of the device that was opened last, and of the next id that it draws.
    pub draws: Draws,
}

impl Counters {
    // One entry more.
    pub fn one_further(self) -> Counters
        requires { self.position < 2 ^ 62 }
        ensures { result ≡ one_further self }
    {
        Counters {
            position: self.position + 1,
            ..self
        }
    }

    // One entry more, which is a tick.
    pub fn ticked(self) -> Counters
        requires { self.position < 2 ^ 62 }
        ensures { result ≡ ticked self }
    {
        Counters {
            position: self.position + 1,
            last_tick: self.position + 1,
            ..self
        }
    }

    // One entry more, which keeps a new instance.
    pub fn one_more(self) -> Counters
        requires position { self.position < 2 ^ 62 }
        requires number { self.next_instance < 2 ^ 62 }
        ensures { result ≡ one_more self }
    {
        Counters {
            position: self.position + 1,
            next_instance: self.next_instance + 1,
            ..self
        }
    }
}

/// What a device holds after its entries.
#[derive(Debug, Drop)]
pub struct State {
    pub settings: Settings,
    /// The address of the server.
    pub server: Text,
    pub counters: Counters,
    pub forms: FormStore,
    pub instances: InstanceStore,
    /// For each entry that was begun and not ended the sheet that it had last.
    pub savepoints: Savepoints,
    pub lists: EntityLists,
    /// The questionnaire that is being filled in.
    pub entry: Option<OpenEntry>,
    pub locks: Locks,
    /// The sends that were begun and not ended.
    pub flights: Rows<Flight>,
}

impl State {
    /// The state before the first entry. It takes no memory.
    pub fn initial(alloc: Global) -> State
        ensures { result ≡ initial }
    {
        State {
            settings: Settings {
                mode: Mode::Manual,
                auto_send: false,
            },
            server: Text::from_string(String::new(alloc)),
            counters: Counters {
                position: 0,
                last_tick: 0,
                next_instance: 1,
                draws: Draws { device: 1, next: 1 },
            },
            forms: FormStore::make(alloc),
            instances: InstanceStore::make(alloc),
            savepoints: Savepoints::make(alloc),
            lists: EntityLists::make(alloc),
            entry: None,
            locks: Locks::make(),
            flights: Rows::make(alloc),
        }
    }

    /// Takes room for what one entry may add.
    pub fn reserve(&mut self) -> Result<(), NoMemory>
        ensures same { plain self.new ≡ plain self.old }
        ensures room { OnOk result (HasRoom self.new) }
    {
        self.forms.reserve()?;
        self.instances.reserve()?;
        self.savepoints.reserve()?;
        self.lists.reserve()?;
        self.flights.reserve()
    }

    /// Puts what an entry changes in its place, and lets go of the hidden forms that nothing names any more. It takes
    /// no memory.
    pub fn change(&mut self, changes: Changes)
        requires { HasRoom self.old }
        ensures { plain self.new ≡ changed (plain self.old) changes }
    {
        let Changes {
            settings,
            server,
            counters,
            forms,
            instances,
            savepoints,
            lists,
            entry,
            locks,
            flights,
        } = changes;
        put(&mut self.settings, settings);
        put(&mut self.server, server);
        self.counters = counters;
        forms.put_into(&mut self.forms);
        instances.put_into(&mut self.instances);
        savepoints.put_into(&mut self.savepoints);
        lists.put_into(&mut self.lists);
        put_entry(&mut self.entry, entry);
        locks.put_into(&mut self.locks);
        flights.put_into(&mut self.flights);
        purge(
            &mut self.forms,
            &self.instances,
            &self.savepoints,
            &self.entry,
        );
    }
}
