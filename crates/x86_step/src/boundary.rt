//! The law of the boundary: an execution on a memory that holds part of the pages is the execution
//! on every memory that agrees with it on what was looked at.
//!
//! The other memory may be any: one that holds every page, as that of a process, or one that holds
//! another part of the pages. Of pages that weren't looked at, and of a page that isn't held,
//! nothing is asked. Nothing is claimed of an execution that misses a page.

ghost use Rattle.x86_step.specs.Boundary.{Boundary, NotedBoundary, FetchBoundary};
ghost use Rattle.x86_step.specs.Boundary.{NotedFetchBoundary, WholeFetchBoundary};

use page_store::whole_fetch;

/// Unless it misses a page, an instruction has the same effect on every memory that agrees on the
/// bytes that it looked at: the same thread and the same write, the same fault, or a system call.
/// So it has on every memory that agrees at all noted addresses, where what it looked at was noted.
pub fn boundary()
    ensures looked { Boundary }
    ensures noted { NotedBoundary }
{}

/// Unless it misses a page, a fetch finds the same bytes on every memory that agrees on the bytes
/// that it looked at, or at all noted addresses. On a memory that holds every page they are the
/// published bytes.
pub fn fetch_boundary()
    ensures looked { FetchBoundary }
    ensures noted { NotedFetchBoundary }
    ensures whole { WholeFetchBoundary }
{
    whole_fetch();
}
