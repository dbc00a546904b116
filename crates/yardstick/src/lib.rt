// For bench/ alone: the record's decoding and writing back, as calls that C can count. The product's archive has none of this.

#![tactic(auto)]

ghost use Rattle.std.specs.Prelude.{◌≡◌};
ghost use Rattle.image.specs.Image as image;
ghost use Rattle.yardstick.specs.Yardstick as yardstick;

// 1 if a record is the image of a state in range, else 0.
#[unsafe(no_mangle)]
pub extern "C" fn lq_yardstick_decode(kept: &[u8]) -> u64
    ensures { result ≡ yardstick.taken (image.decode_of kept.now) }
{
    u64::from(image::decode(kept).is_some())
}

// The same, and the record is written back as it was decoded.
#[unsafe(no_mangle)]
pub extern "C" fn lq_yardstick_both(kept: &mut [u8]) -> u64
    ensures { yardstick.Both kept.old result kept.new }
{
    let Some(k) = image::decode(kept) else {
        return 0;
    };
    image::store(kept, k);
    1
}
