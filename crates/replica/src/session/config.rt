//! The settings of a replica.

ghost use Rattle.std.specs.Prelude.{◌≡◌, ◌↔◌, IfOk, Err};
ghost use Rattle.replica.specs.Settings.{IsUserName, IsLimit};

use std::alloc::{AllocError, Global};
use std::marker::Model;
use thiserror::Error;
use wire::LARGEST_PAYLOAD;

/// Why settings are refused.
#[derive(Clone, Copy, Debug, PartialEq, Eq, Error)]
pub enum ConfigFault {
    /// The user name is longer than 255 bytes or has a zero byte.
    #[error("the user name is longer than 255 bytes or has a zero byte")]
    User,
    /// The limit on a payload is not from 1 to 1,073,741,824 bytes (1 GiB).
    #[error("the limit on a payload is not from 1 to 1073741824 bytes")]
    Limit,
    /// An allocation was refused.
    #[error("out of memory")]
    Memory,
}

/// The settings of a replica: how it logs in, and what it asks for.
#[derive(Drop)]
pub struct Config {
    pub(crate) user: Vec<u8>,
    pub(crate) password: Vec<u8>,
    pub(crate) server_id: u32,
    pub(crate) once: bool,
    pub(crate) limit: usize,
}

impl Model for Config {
    ghost use Rattle.replica.specs.Settings.{Settings, IsUserName, IsLimit};

    ghost Value = { Settings };

    ghost view = { λ c. record { user = c.user.items; password = c.password.items; server_id = c.server_id; once = c.once; limit = c.limit } };

    ghost invariant = { λ c. IsUserName c.user.items × IsLimit c.limit };
}

impl Config {
    /// Settings with a user name, its password, the replica's server id, `once`, and `limit`. With `once` the source
    /// sends an EOF at the end of its log instead of waiting there. `limit` is the length in bytes of the longest
    /// payload that is taken.
    ///
    /// `User` if the name has more than 255 bytes or a zero byte; otherwise `Limit` if the limit is not from 1 to 1
    /// GiB; `Memory` if an allocation was refused.
    pub fn new(
        alloc: Global,
        user: &[u8],
        password: &[u8],
        server_id: u32,
        once: bool,
        limit: usize,
    ) -> Result<Config, ConfigFault>
        ensures made { IfOk result (λ c. c ≡ record {
          user = user.now;
          password = password.now;
          server_id = server_id;
          once = once;
          limit = limit;
        }) }
        ensures user { (result ≡ Err ConfigFault.User) ↔ (IsUserName user.now → ⊥) }
        ensures limit { (result ≡ Err ConfigFault.Limit)
            ↔ (IsUserName user.now × (IsLimit limit → ⊥)) }
    {
        if user.len() > 255 || user.contains(&0) {
            return Err(ConfigFault::User);
        }
        if limit < 1 || limit > LARGEST_PAYLOAD {
            return Err(ConfigFault::Limit);
        }
        let user = user.to_vec(alloc).map_err(|_| ConfigFault::Memory)?;
        let password = password.to_vec(alloc).map_err(|_| ConfigFault::Memory)?;
        Ok(Config {
            user,
            password,
            server_id,
            once,
            limit,
        })
    }

    /// The longest payload that is taken, in bytes.
    pub(crate) fn limit(&self) -> usize
        ensures value { result ≡ self.now.limit }
        ensures range { IsLimit result }
    {
        self.limit
    }

    pub(crate) fn alloc(&self) -> Global {
        *self.user.allocator()
    }

    /// A copy of the settings.
    pub(crate) fn copy(&self) -> Result<Config, AllocError>
        ensures { IfOk result (λ c. c ≡ self.now) }
    {
        Ok(Config {
            user: self.user.clone()?,
            password: self.password.clone()?,
            server_id: self.server_id,
            once: self.once,
            limit: self.limit,
        })
    }
}
