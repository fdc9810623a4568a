ghost use Rattle.std.specs.Prelude.{◌≡◌, length};

use trip_model::Links;

/// Copies links into a list.
pub(crate) fn read_links(links: &Links, next: &mut [Option<u16>])
    requires { length next.old ≡ length links.now }
    ensures { next.new ≡ links.now }
{
    for slot in 0..links.slots() {
        next[slot as usize] = links.next(slot);
    }
}

/// Copies a list into links.
pub(crate) fn write_links(next: &[Option<u16>], links: &mut Links)
    requires { length next.now ≡ length links.old }
    ensures { links.new ≡ next.now }
{
    for slot in 0..links.slots() {
        links.set(slot, next[slot as usize]);
    }
}
