//! The trusted part of a program: its domains, each with a protection key, a text and entries of
//! its own, and which of them a PKRU opens.

ghost use Rattle.std.specs.Prelude.{◌≡◌, ◌≤◌, ◌<◌, get_or, not, if◌then◌else◌};
ghost use Rattle.erim_defs.specs.Inspection.Check.{closed_value, compared_value};
ghost use Rattle.erim_defs.specs.Machine.Access.{opens, opens_write};
ghost use Rattle.erim_defs.specs.Machine.Domains.{is_at_home, is_denied, is_set_but};
ghost use Rattle.erim_defs.specs.Machine.Domains.{opened_domains};
ghost use Rattle.erim_defs.specs.Machine.Domains.{opens_domain};
ghost use Rattle.erim_defs.specs.Inspection.Trust.{TrustValue, entry_key, in_text_of, is_domain};
ghost use Rattle.erim_defs.specs.Inspection.Trust.{is_entry_of, is_integrity, key_beside, key_bits};
ghost use Rattle.erim_defs.specs.Inspection.Trust.{pkru_of, spans, text_key};

use crate::pkru;
use std::marker::Model;

/// A range of addresses.
#[derive(Clone, Copy, PartialEq, Eq)]
pub struct Span {
    /// Its first address.
    pub start: u64,
    /// Its number of bytes.
    pub length: u64,
}

impl Span {
    /// Is the address in the range?
    pub fn holds(&self, addr: u64) -> bool
        ensures { result ≡ spans addr self.now }
    {
        self.start <= addr && addr - self.start < self.length
    }
}

/// The domains of a program: their text, and the addresses at which it may be entered. Domains have
/// keys from 1 to 4; key 1 always is one.
#[derive(Drop)]
pub struct Trust {
    /// The ranges of trusted text.
    pub texts: Vec<Span>,
    /// The addresses at which trusted text may be entered.
    pub entries: Vec<u64>,
    /// The key of each range of `texts`, in its order.
    pub text_keys: Vec<u8>,
    /// The key of each of `entries`, in its order.
    pub entry_keys: Vec<u8>,
    /// Is it a domain, of each key from 0 to 4?
    pub domains: [bool; 5],
    /// Is it an integrity domain, whose pages every thread may read, of each key from 0 to 4?
    pub integrity: [bool; 5],
    /// Does a check follow each WRPKRU, also one before an entry? It does with a note of version 2.
    pub strict: bool,
}

impl Model for Trust {
    ghost use Rattle.erim_defs.specs.Inspection.Trust.{TrustValue};

    ghost Value = { TrustValue };

    ghost view = { λ trust. record {
      texts = trust.texts.items;
      entries = trust.entries.items;
      text_keys = trust.text_keys.items;
      entry_keys = trust.entry_keys.items;
      domains = trust.domains;
      integrity = trust.integrity;
      strict = trust.strict;
    } };
}

// Does a PKRU permit reading with a key, or writing too?
fn permits(pkru: u32, key: u8, write: bool) -> bool
    requires { key < 16 }
    ensures { result ≡ (if write then opens_write pkru key else opens pkru key) }
{
    if write {
        pkru::opens_write(pkru, key)
    } else {
        pkru::opens(pkru, key)
    }
}

// The key at a place, or 0.
fn key_at(keys: &[u8], place: usize) -> u8
    ensures { result ≡ get_or keys.now place 0 }
{
    match keys.get(place) {
        Some(key) => *key,
        None => 0,
    }
}

/// The key beside the first of ranges that holds an address, or 0.
pub fn key_beside(ranges: &[Span], keys: &[u8], addr: u64) -> u8
    ensures { result ≡ key_beside (spans addr) ranges.now keys.now }
{
    for (place, range) in ranges.iter().enumerate() {
        if range.holds(addr) {
            return key_at(keys, place);
        }
    }
    0
}

impl Trust {
    /// The ranges of trusted text.
    pub fn texts(&self) -> &[Span]
        ensures { result.now ≡ self.now.texts }
    {
        self.texts.as_slice()
    }

    /// The addresses at which trusted text may be entered.
    pub fn entries(&self) -> &[u64]
        ensures { result.now ≡ self.now.entries }
    {
        self.entries.as_slice()
    }

    // AD and WD of a key, where one domain alone is opened.
    fn key_bits(&self, opened_domains: u8, key: u8) -> u32
        requires { key < 5 }
        ensures { result ≡ key_bits self.now opened_domains key }
    {
        if key == opened_domains {
            0
        } else if self.integrity[usize::from(key)] {
            2
        } else {
            1
        }
    }

    /// The PKRU that opens one domain alone, or none where it is 0.
    #[tactic(auto, unfolding(crate::specs::Inspection::Trust::pkru_of))]
    pub fn pkru_of(&self, opened_domains: u8) -> u32
        ensures { result ≡ pkru_of self.now opened_domains }
    {
        0x5555_5400
            + 4 * self.key_bits(opened_domains, 1)
            + 16 * self.key_bits(opened_domains, 2)
            + 64 * self.key_bits(opened_domains, 3)
            + 256 * self.key_bits(opened_domains, 4)
    }

    /// The PKRU of a closed thread.
    pub fn closed_value(&self) -> u32
        ensures { result ≡ closed_value self.now }
    {
        self.pkru_of(0)
    }

    /// Is this key a domain?
    pub fn is_domain(&self, key: u8) -> bool
        ensures { result ≡ is_domain self.now key }
    {
        match self.domains.get(usize::from(key)) {
            Some(flag) => *flag,
            None => false,
        }
    }

    // Is this key an integrity domain?
    fn is_integrity(&self, key: u8) -> bool
        ensures { result ≡ is_integrity self.now key }
    {
        match self.integrity.get(usize::from(key)) {
            Some(flag) => *flag,
            None => false,
        }
    }

    /// Does a PKRU open this domain?
    pub fn opens(&self, pkru: u32, domain: u8) -> bool
        requires { domain < 5 }
        ensures { result ≡ opens_domain self.now pkru domain }
    {
        self.is_domain(domain) && permits(pkru, domain, self.is_integrity(domain))
    }

    /// Does a PKRU open a domain other than this key?
    #[tactic(auto, using(crate::proofs::DomainLemmas::set_but_flags))]
    pub fn opens_other(&self, pkru: u32, own: u8) -> bool
        ensures { result ≡ is_set_but own (opened_domains self.now pkru) }
    {
        (own != 1 && self.opens(pkru, 1))
            || (own != 2 && self.opens(pkru, 2))
            || (own != 3 && self.opens(pkru, 3))
            || (own != 4 && self.opens(pkru, 4))
    }

    /// Is this key a domain that a PKRU doesn't open?
    pub fn is_denied(&self, pkru: u32, key: u8) -> bool
        requires { key < 16 }
        ensures { result ≡ is_denied self.now pkru key }
    {
        self.is_domain(key) && !permits(pkru, key, self.is_integrity(key))
    }

    /// Does a PKRU open no domain?
    pub fn is_closed(&self, pkru: u32) -> bool
        ensures { result ≡ not (is_set_but 0 (opened_domains self.now pkru)) }
    {
        !self.opens_other(pkru, 0)
    }

    /// The domain in whose text an address is, or 0.
    #[tactic(auto, unfolding(crate::specs::Inspection::Trust::text_key))]
    pub fn text_key(&self, addr: u64) -> u8
        ensures { result ≡ text_key self.now addr }
    {
        key_beside(self.texts.as_slice(), self.text_keys.as_slice(), addr)
    }

    /// The domain whose entry an address is, or 0.
    pub fn entry_key(&self, addr: u64) -> u8
        ensures { result ≡ entry_key self.now addr }
    {
        for (place, entry) in self.entries.iter().enumerate() {
            if *entry == addr {
                return key_at(self.entry_keys.as_slice(), place);
            }
        }
        0
    }

    /// Does an address lie in the text of a domain, where a PKRU opens no other domain?
    pub fn at_home(&self, pkru: u32, rip: u64) -> bool
        ensures { result ≡ is_at_home self.now pkru rip }
    {
        let own = self.text_key(rip);
        own != 0 && !self.opens_other(pkru, own)
    }

    /// What the check after a WRPKRU compares with; the address is the one after the WRPKRU.
    pub fn compared_value(&self, next: u64) -> u32
        ensures { result ≡ compared_value self.now next }
    {
        self.pkru_of(if self.strict { self.entry_key(next) } else { 0 })
    }

    /// Is the address in trusted text?
    pub fn is_trusted(&self, addr: u64) -> bool
        ensures { result ≡ in_text_of self.now addr }
    {
        self.texts.iter().any(|text| text.holds(addr))
    }

    /// Is the address an entry?
    pub fn is_entry(&self, addr: u64) -> bool
        ensures { result ≡ is_entry_of self.now addr }
    {
        self.entries.iter().any(|entry| *entry == addr)
    }
}
