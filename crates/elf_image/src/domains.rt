//! The domains that the records of a trust note list: a domain is a key that some record has, and
//! the trusted key always; a mark makes its key an integrity domain.

ghost use Rattle.std.specs.Prelude.{◌≡◌, ◌≤◌, [], IfOk, None};
ghost use Rattle.std.specs.List.{list_any};
ghost use Rattle.erim_defs.specs.Inspection.Image.{marks, record_fault};
ghost use Rattle.elf_image.specs.Domains.{domains_in, has_key, integrity_in, trust_in};
ghost use Rattle.elf_image.specs.Notes.{HasTableOf};
ghost use Rattle.elf_image.specs.Records.{seen_before, table_records};

use crate::lists::{entry_addresses, keys, spans};
use crate::record::Record;
use crate::records::RecordTable;
use erim_defs::Trust;
use erim_defs::note::{TRUSTED_ENTRY, TRUSTED_TEXT};
use std::alloc::{AllocError, Global};

/// Does a record before an index mark the key as an integrity domain?
#[tactic(auto, using(crate::proofs::DomainLemmas::marked_steps))]
pub(crate) fn marked_earlier(bytes: &[u8], table: RecordTable, index: u32, key: u32) -> bool
    requires table { HasTableOf bytes.now table }
    requires index { index ≤ table.count }
    ensures { result ≡ list_any (marks key) (seen_before bytes.now table index) }
{
    let mut marked = false;
    for earlier in 0..index {
        marked = Record::read(bytes, table, earlier).marks(key) || marked;
    }
    marked
}

// Does some record have the key?
#[tactic(auto, using(crate::proofs::DomainLemmas::named_steps))]
fn is_named(bytes: &[u8], table: RecordTable, key: u32) -> bool
    requires { HasTableOf bytes.now table }
    ensures { result ≡ list_any (has_key key) (table_records bytes.now table) }
{
    let mut named = false;
    for index in 0..table.count {
        named = Record::read(bytes, table, index).key() == key || named;
    }
    named
}

// Does some record mark the key as an integrity domain?
#[tactic(auto, using(crate::proofs::DomainLemmas::marked_all))]
fn is_marked(bytes: &[u8], table: RecordTable, key: u32) -> bool
    requires { HasTableOf bytes.now table }
    ensures { result ≡ list_any (marks key) (table_records bytes.now table) }
{
    marked_earlier(bytes, table, table.count, key)
}

// Which keys are domains, of each from 0 to 4?
#[tactic(auto, unfolding(crate::specs::Domains::domains_in))]
fn domains(bytes: &[u8], table: RecordTable) -> [bool; 5]
    requires { HasTableOf bytes.now table }
    ensures { result ≡ domains_in (table_records bytes.now table) }
{
    [
        false,
        true,
        is_named(bytes, table, 2),
        is_named(bytes, table, 3),
        is_named(bytes, table, 4),
    ]
}

// Which keys are integrity domains, of each from 0 to 4?
#[tactic(auto, unfolding(crate::specs::Domains::integrity_in))]
fn integrity(bytes: &[u8], table: RecordTable) -> [bool; 5]
    requires { HasTableOf bytes.now table }
    ensures { result ≡ integrity_in (table_records bytes.now table) }
{
    [
        false,
        is_marked(bytes, table, 1),
        is_marked(bytes, table, 2),
        is_marked(bytes, table, 3),
        is_marked(bytes, table, 4),
    ]
}

/// The trusted part that records without a fault list.
pub(crate) fn trust(alloc: Global, bytes: &[u8], table: RecordTable) -> Result<Trust, AllocError>
    requires table { HasTableOf bytes.now table }
    requires sound { record_fault table.has_domains 0 [] (table_records bytes.now table) ≡ None }
    ensures { IfOk result (λ trust.
        trust ≡ trust_in table.has_domains (table_records bytes.now table)) }
{
    Ok(Trust {
        texts: spans(alloc, bytes, table, TRUSTED_TEXT)?,
        entries: entry_addresses(alloc, bytes, table)?,
        text_keys: keys(alloc, bytes, table, TRUSTED_TEXT)?,
        entry_keys: keys(alloc, bytes, table, TRUSTED_ENTRY)?,
        domains: domains(bytes, table),
        integrity: integrity(bytes, table),
        strict: table.has_domains,
    })
}
