ghost use Rattle.std.specs.Prelude.{◌≡◌, ◌<◌, ◌≤◌, ◌∷◌, ◌++◌, [], length, map, option_map, bytes_eq, slice_get, IfSome, vec_len, Some};
ghost use Rattle.std.specs.List.{position_from};
ghost use Rattle.ob_base.specs.Integers.{InRange};
ghost use Rattle.ob_hosts.specs.Entry.{HostEntry};
ghost use Rattle.ob_hosts.specs.Value.{host_value};
ghost use Rattle.ob_hosts.specs.Host.{entry_of};

use crate::{HostCode, HostFn};
use ob_base::Text;
use std::alloc::Global;

/// The host functions, each at its place, from 0; at most 1,000.
#[derive(Drop)]
pub struct HostTable {
    hosts: Vec<HostFn>,
    ghost few: { vec_len hosts ≤ 1000 },
}

/// Why a host function was not added. It is handed back.
#[derive(Drop)]
pub enum HostError {
    /// The table has a host function of that name.
    HostExists(HostFn),
    /// An allocation was refused.
    NoMemory(HostFn),
}

impl HostTable {
    ghost use Rattle.ob_hosts.specs.Table.{entries, AddsHost};

    /// The table of no host function.
    pub fn new(alloc: Global) -> HostTable
        ensures { entries result ≡ [] }
    {
        HostTable {
            hosts: Vec::new(alloc),
        }
    }

    /// Adds a host function at the end.
    ///
    /// # Errors
    /// `HostExists` exactly where the name is there, `NoMemory` where an allocation is refused; the
    /// table is then as before, and the host function is handed back.
    pub fn add(&mut self, host: HostFn) -> Result<(), HostError>
        requires { length (entries self.old) < 1000 }
        ensures { AddsHost (entries self.old) (entries self.new) (entry_of host) result }
    {
        if self.find(&host.name).is_some() {
            return Err(HostError::HostExists(host));
        }
        match self.hosts.push(host) {
            Ok(()) => Ok(()),
            Err(refused) => Err(HostError::NoMemory(refused.value)),
        }
    }

    /// The name, the number of arguments and the code at a place; none past the end.
    pub fn get(&self, host: u16) -> Option<(&Text, u8, HostCode)>
        ensures { option_map (λ e. record { name = e.0.now; arity = e.1; code = e.2 }) result ≡ slice_get (entries self.now) host }
    {
        entry_at(&self.hosts, host as usize)
    }

    /// The place of a name; none where it isn't there.
    pub fn find(&self, name: &Text) -> Option<u16>
        ensures { result ≡ position_from (λ e. bytes_eq e.name name.now) 0 (entries self.now) }
    {
        match place_of(&self.hosts, name.as_str()) {
            Some(place) => Some(place as u16),
            None => None,
        }
    }

    /// The value that the host function at a place gives.
    pub fn call(&self, host: u16, a: i64, b: i64) -> Option<i64>
        requires place { host < length (entries self.now) }
        requires first { InRange a }
        requires second { InRange b }
        ensures { option_map (λ e. host_value e.code a b) (slice_get (entries self.now) host) ≡ Some result }
    {
        call_at(&self.hosts, host as usize, a, b)
    }
}

fn place_of(hosts: &[HostFn], name: &str) -> Option<usize>
    ensures value { result ≡ position_from (λ e. bytes_eq e.name name.now) 0 (map entry_of hosts.now) }
    ensures within { IfSome result (λ place. place < length hosts.now) }
{
    for (place, host) in hosts.iter().enumerate() {
        if host.name.as_str() == name {
            return Some(place);
        }
    }
    None
}

fn entry_at(hosts: &[HostFn], place: usize) -> Option<(&Text, u8, HostCode)>
    ensures { option_map (λ e. record { name = e.0.now; arity = e.1; code = e.2 }) result ≡ slice_get (map entry_of hosts.now) place }
{
    let host = hosts.get(place)?;
    Some((&host.name, host.arity, host.code))
}

fn call_at(hosts: &[HostFn], place: usize, a: i64, b: i64) -> Option<i64>
    requires place { place < length hosts.now }
    requires first { InRange a }
    requires second { InRange b }
    ensures { option_map (λ e. host_value e.code a b) (slice_get (map entry_of hosts.now) place) ≡ Some result }
{
    hosts[place].call(a, b)
}
