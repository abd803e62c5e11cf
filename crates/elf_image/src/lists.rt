//! The lists that an image lists.

ghost use Rattle.std.specs.Prelude.{◌≡◌, [], IfOk, None};
ghost use Rattle.erim_defs.specs.Inspection.Image.{headers, record_fault, segments, starts_of};
ghost use Rattle.elf_image.specs.Form.{keys_in, spans_in};
ghost use Rattle.elf_image.specs.Functions.{table_functions};
ghost use Rattle.elf_image.specs.Notes.{HasFunctionsOf, HasTableOf};
ghost use Rattle.elf_image.specs.Records.{table_records};
ghost use Rattle.elf_image.specs.Table.{HasTable};

use crate::field::header_count;
use crate::functions::{FunctionTable, read_function};
use crate::header::Header;
use crate::record::Record;
use crate::records::RecordTable;
use erim_defs::{Segment, Span};
use std::alloc::{AllocError, Global};

/// The program headers in table order.
#[tactic(auto, using(crate::proofs::ListLemmas::headers_steps))]
pub(crate) fn headers(alloc: Global, bytes: &[u8]) -> Result<Vec<Header>, AllocError>
    requires { HasTable bytes.now }
    ensures { IfOk result (λ list. list.items ≡ headers bytes.now) }
{
    let mut list = Vec::new(alloc);
    for index in 0..header_count(bytes) {
        list.push(Header::read(bytes, index))?;
    }
    Ok(list)
}

/// The loadable segments in table order.
#[tactic(auto, using(crate::proofs::ListLemmas::segments_steps))]
pub(crate) fn segments(alloc: Global, bytes: &[u8]) -> Result<Vec<Segment>, AllocError>
    requires { HasTable bytes.now }
    ensures { IfOk result (λ list. list.items ≡ segments bytes.now) }
{
    let mut list = Vec::new(alloc);
    for index in 0..header_count(bytes) {
        let header = Header::read(bytes, index);
        if header.is_loadable() {
            list.push(header.segment())?;
        }
    }
    Ok(list)
}

/// The ranges of the records of a kind.
#[tactic(auto, using(crate::proofs::ListLemmas::spans_steps))]
pub(crate) fn spans(
    alloc: Global,
    bytes: &[u8],
    table: RecordTable,
    kind: u32,
) -> Result<Vec<Span>, AllocError>
    requires { HasTableOf bytes.now table }
    ensures { IfOk result (λ list. list.items ≡ spans_in kind (table_records bytes.now table)) }
{
    let mut list = Vec::new(alloc);
    for index in 0..table.count {
        let record = Record::read(bytes, table, index);
        if record.kind() == kind {
            list.push(record.span_of())?;
        }
    }
    Ok(list)
}

/// The keys of the records of a kind.
#[tactic(auto, using(crate::proofs::ListLemmas::keys_steps))]
pub(crate) fn keys(
    alloc: Global,
    bytes: &[u8],
    table: RecordTable,
    kind: u32,
) -> Result<Vec<u8>, AllocError>
    requires table { HasTableOf bytes.now table }
    requires sound { record_fault table.has_domains 0 [] (table_records bytes.now table) ≡ None }
    ensures { IfOk result (λ list. list.items ≡ keys_in kind (table_records bytes.now table)) }
{
    let mut list = Vec::new(alloc);
    for index in 0..table.count {
        let record = Record::read(bytes, table, index);
        if record.kind() == kind {
            list.push(record.key() as u8)?;
        }
    }
    Ok(list)
}

/// The addresses of the entries.
#[tactic(auto, using(crate::proofs::ListLemmas::entries_steps))]
pub(crate) fn entry_addresses(
    alloc: Global,
    bytes: &[u8],
    table: RecordTable,
) -> Result<Vec<u64>, AllocError>
    requires { HasTableOf bytes.now table }
    ensures { IfOk result (λ list. list.items ≡ starts_of (table_records bytes.now table)) }
{
    let mut list = Vec::new(alloc);
    for index in 0..table.count {
        let record = Record::read(bytes, table, index);
        if record.is_entry_record() {
            list.push(record.start())?;
        }
    }
    Ok(list)
}

/// The functions of a table.
#[tactic(auto, using(crate::proofs::FunctionLemmas::functions_steps))]
pub(crate) fn functions(
    alloc: Global,
    bytes: &[u8],
    table: FunctionTable,
) -> Result<Vec<Span>, AllocError>
    requires { HasFunctionsOf bytes.now table }
    ensures { IfOk result (λ list. list.items ≡ table_functions bytes.now table) }
{
    let mut list = Vec::new(alloc);
    for index in 0..table.count {
        list.push(read_function(bytes, table, index))?;
    }
    Ok(list)
}
