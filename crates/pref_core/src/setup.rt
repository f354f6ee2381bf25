//! How large a table is.

ghost use Rattle.std.specs.Prelude.{◌≤◌, ◌≡◌, ◌↔◌, IsSome, IfSome, IsOk, IfOk, IfErr};
ghost use Rattle.pref_core.specs.Limits.{Limits, AreAllowed, blocks};

use std::marker::Model;
use thiserror::Error;

/// The most clients of a table.
pub(crate) const MOST_CLIENTS: u8 = 8;

/// The most slots of a table, and the most slots of a block and entries of a window.
const MOST_SLOTS: u32 = 65_536;

/// Why a number of a setup is refused: which one it is, and what was given. Its text has the range too.
///
/// ```rust
/// if let Err(fault) = setup.with_clients(9) {
///     println!(rt; "{fault}")?;     // clients must be 1 to 8, not 9
/// }
/// ```
#[derive(Clone, Copy, Debug, PartialEq, Eq, Error)]
pub enum SetupFault {
    /// A table has 1 to 8 clients.
    #[error("clients must be 1 to {most}, not {given}", most = MOST_CLIENTS)]
    Clients {
        /// How many were given.
        given: u8,
    },
    /// A table has 1 to 65,536 slots.
    #[error("capacity must be 1 to {most}, not {given}", most = MOST_SLOTS)]
    Capacity {
        /// How many were given.
        given: u32,
    },
    /// A block has 1 to 65,536 slots.
    #[error("block must be 1 to {most}, not {given}", most = MOST_SLOTS)]
    Block {
        /// How many were given.
        given: u32,
    },
    /// A window has 1 to 65,536 entries.
    #[error("window must be 1 to {most}, not {given}", most = MOST_SLOTS)]
    Window {
        /// How many were given.
        given: u32,
    },
}

/// How large a table is: its clients, its slots, how many of them a scan reads at once, and how many
/// entries a query compares at once.
///
/// Contracts see the four numbers. Only numbers that are allowed make one, so whoever holds a setup
/// need not test it again.
///
/// ```rust
/// let setup = Setup::default().with_clients(2)?.with_block(256)?;
/// let blocks = setup.blocks();     // 4
/// ```
#[derive(Clone, Copy, Debug, PartialEq, Eq)]
pub struct Setup {
    clients: u8,
    capacity: u32,
    block: u32,
    window: u32,
}

impl Model for Setup {
    ghost use Rattle.pref_core.specs.Limits.{Limits, AreAllowed};

    ghost Value = { Limits };

    ghost view = { λ s. record { clients = s.clients; capacity = s.capacity; block = s.block; window = s.window } };

    ghost invariant = { λ s. AreAllowed (record { clients = s.clients; capacity = s.capacity; block = s.block; window = s.window }) };

    ghost inverse = { λ l. record { clients = l.clients; capacity = l.capacity; block = l.block; window = l.window } };
}

impl Default for Setup {
    ghost is_default = { λ s. s ≡ record { clients = 4; capacity = 1024; block = 1024; window = 64 } };

    /// The setup of 4 clients and 1,024 slots, which are one block, with a window of 64 entries.
    fn default() -> Setup {
        Setup {
            clients: 4,
            capacity: 1024,
            block: 1024,
            window: 64,
        }
    }
}

impl Setup {
    /// The setup of 1 to 8 clients, and of a capacity, a block and a window of 1 to 65,536 each; none
    /// where a number is outside.
    ///
    /// ```rust
    /// let setup = Setup::new(4, 1024, 1024, 64).context("a number outside the limits")?;
    /// let blocks = setup.blocks();     // 1
    /// ```
    pub fn new(clients: u8, capacity: u32, block: u32, window: u32) -> Option<Setup>
        ensures some { IsSome result ↔ AreAllowed (record { clients = clients; capacity = capacity; block = block; window = window }) }
        ensures value { IfSome result (λ s. s ≡ record { clients = clients; capacity = capacity; block = block; window = window }) }
    {
        Setup::default()
            .with_clients(clients)
            .ok()?
            .with_capacity(capacity)
            .ok()?
            .with_block(block)
            .ok()?
            .with_window(window)
            .ok()
    }

    /// This setup with this many clients, 1 to 8. Refused for any other number.
    ///
    /// ```rust
    /// let setup = Setup::default().with_clients(2)?;
    /// ```
    pub fn with_clients(self, clients: u8) -> Result<Setup, SetupFault>
        ensures allowed { IsOk result ↔ ((1 ≤ clients) × (clients ≤ 8)) }
        ensures value { IfOk result (λ s. s ≡ record self { clients = clients }) }
        ensures refused { IfErr result (λ fault. fault ≡ SetupFault.Clients clients) }
    {
        if clients < 1 || clients > MOST_CLIENTS {
            return Err(SetupFault::Clients { given: clients });
        }
        Ok(Setup { clients, ..self })
    }

    /// This setup with this many slots, 1 to 65,536. Refused for any other number.
    ///
    /// ```rust
    /// let setup = Setup::default().with_capacity(65_536)?;
    /// ```
    pub fn with_capacity(self, capacity: u32) -> Result<Setup, SetupFault>
        ensures allowed { IsOk result ↔ ((1 ≤ capacity) × (capacity ≤ 65536)) }
        ensures value { IfOk result (λ s. s ≡ record self { capacity = capacity }) }
        ensures refused { IfErr result (λ fault. fault ≡ SetupFault.Capacity capacity) }
    {
        if capacity < 1 || capacity > MOST_SLOTS {
            return Err(SetupFault::Capacity { given: capacity });
        }
        Ok(Setup { capacity, ..self })
    }

    /// This setup with blocks of this many slots, 1 to 65,536. Refused for any other number.
    ///
    /// ```rust
    /// let setup = Setup::default().with_block(256)?;
    /// ```
    pub fn with_block(self, block: u32) -> Result<Setup, SetupFault>
        ensures allowed { IsOk result ↔ ((1 ≤ block) × (block ≤ 65536)) }
        ensures value { IfOk result (λ s. s ≡ record self { block = block }) }
        ensures refused { IfErr result (λ fault. fault ≡ SetupFault.Block block) }
    {
        if block < 1 || block > MOST_SLOTS {
            return Err(SetupFault::Block { given: block });
        }
        Ok(Setup { block, ..self })
    }

    /// This setup with a window of this many entries, 1 to 65,536. Refused for any other number.
    ///
    /// ```rust
    /// let setup = Setup::default().with_window(1)?;
    /// ```
    pub fn with_window(self, window: u32) -> Result<Setup, SetupFault>
        ensures allowed { IsOk result ↔ ((1 ≤ window) × (window ≤ 65536)) }
        ensures value { IfOk result (λ s. s ≡ record self { window = window }) }
        ensures refused { IfErr result (λ fault. fault ≡ SetupFault.Window window) }
    {
        if window < 1 || window > MOST_SLOTS {
            return Err(SetupFault::Window { given: window });
        }
        Ok(Setup { window, ..self })
    }

    /// How many clients there are, 1 to 8. Their numbers are 1 and up.
    pub fn clients(&self) -> u8
        ensures value { result ≡ self.now.clients }
        ensures range { (1 ≤ result) × (result ≤ 8) }
    {
        self.clients
    }

    /// How many slots there are, 1 to 65,536: no more versions of rows are ever kept.
    pub fn capacity(&self) -> u32
        ensures value { result ≡ self.now.capacity }
        ensures range { (1 ≤ result) × (result ≤ 65536) }
    {
        self.capacity
    }

    /// How many slots a scan reads, 1 to 65,536.
    pub fn block(&self) -> u32
        ensures value { result ≡ self.now.block }
        ensures range { (1 ≤ result) × (result ≤ 65536) }
    {
        self.block
    }

    /// How many entries a query compares with each other at once, 1 to 65,536. No answer depends on it.
    pub fn window(&self) -> u32
        ensures value { result ≡ self.now.window }
        ensures range { (1 ≤ result) × (result ≤ 65536) }
    {
        self.window
    }

    /// How many blocks hold all slots: the capacity divided by the block, rounded up.
    pub fn blocks(&self) -> u32
        ensures value { result ≡ blocks self.now }
        ensures few { result ≤ 65536 }
        ensures allowed { AreAllowed self.now }
    {
        self.capacity.div_ceil(self.block)
    }
}
