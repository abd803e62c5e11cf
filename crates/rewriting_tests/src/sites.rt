//! The library calls of rewriting: one site of seven bytes, and bytes that are no image.

use elf_image::{ImageFault, read_image};
use overlap_rewrite::{RewriteFault, rewrite};
use rewrite_sites::find_sites;
use test_rows::image_bytes;

/// mov eax, 0x0F000000; add edi, ebp; mov eax, 231; syscall.
const LINES: &str = "\
page 401000 rx B80000000F01EFB8E70000000F05
function 401000 e";

#[test]
fn one_site(rt: HostRuntime) {
    let bytes = image_bytes(rt.alloc(), LINES).ok().expect(&rt, "bytes");
    let image = read_image(rt.alloc(), &bytes).ok().expect(&rt, "image");
    let sites = find_sites(rt.alloc(), &image).ok().expect(&rt, "sites");
    assert!(rt; sites.list.len() == 1);
    for site in &sites.list {
        assert!(rt; site.start == 0x401000 && site.length == 7 && site.found.at == 0x401004);
    }
    let new = rewrite(rt.alloc(), image.bytes()).ok();
    assert!(rt; new.is_some_and(|new| new.sites.list.len() == 1));
}

#[test]
fn no_image(rt: HostRuntime) {
    let answer = rewrite(rt.alloc(), &[]);
    assert!(rt;
        matches!(
            answer,
            Err(RewriteFault::Image(ImageFault::Short { at: 0 }))
        )
    );
}
