// The bytes that stand for items, written into a lent buffer.
#![tactic(auto)]

ghost use Rattle.std.specs.Prelude.{◌≡◌, ◌+◌, ◌*◌, ◌≤◌, length};
ghost use Rattle.paper.specs.Stream.{image, front};
ghost use Rattle.paper.specs.Channel.{written};
ghost use Rattle.images.specs.Code.{kind_of, byte_of, item_in, images_in};

use paper::Item;

// "plain b is b; doubled is FF FF; damaged b is FF 00 b", at the front of a part; answers how many bytes that is.
#[tactic(auto, unfolding(crate::specs::Code::item_in))]
fn put_image(part: &mut [u8], kind: u8, byte: u8) -> usize
    requires { 3 ≤ length part.old }
    ensures value { result ≡ length (image (item_in kind byte)) }
    ensures part_after { part.new ≡ front (image (item_in kind byte)) part.old }
{
    match kind {
        0 => {
            part[0] = byte;
            1
        }
        1 => {
            part[0] = 255;
            part[1] = 255;
            2
        }
        _ => {
            part[0] = 255;
            part[1] = 0;
            part[2] = byte;
            3
        }
    }
}

// "writes their images into the lent buffer from a given place on"; answers how many bytes they are.
pub fn put_images(kinds: &[u8], bytes: &[u8], buffer: &mut [u8], place: usize) -> usize
    requires same_length { length kinds.now ≡ length bytes.now }
    requires room { place + 3 * length kinds.now ≤ length buffer.old }
    ensures value { result ≡ length (images_in kinds.now bytes.now) }
    ensures buffer_after { buffer.new ≡ written buffer.old place (images_in kinds.now bytes.now) }
{
    let mut long = 0;
    for (kind, byte) in kinds.iter().zip(bytes) {
        long += put_image(&mut buffer[place + long..], *kind, *byte);
    }
    long
}

// The item's kind: 0 plain, 1 doubled, 2 damaged.
pub fn kind_of(item: Item) -> u8
    ensures { result ≡ kind_of item }
{
    match item {
        Item::Plain(_) => 0,
        Item::Doubled => 1,
        Item::Damaged(_) => 2,
    }
}

// The item's byte: a doubled item is a good FF.
pub fn byte_of(item: Item) -> u8
    ensures { result ≡ byte_of item }
{
    match item {
        Item::Plain(b) | Item::Damaged(b) => b,
        Item::Doubled => 255,
    }
}
