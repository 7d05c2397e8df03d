// How what a line brings is answered.
use buffers::Sheet;
use digits::number::{Radix, put_digits};
use status::{Unfit, word_of_intake};

pub fn ok(out: &mut Sheet) {
    out.put(b"ok")
}

// The word of what is not good.
pub(crate) fn refused(out: &mut Sheet, e: Unfit) {
    let word = word_of_intake::<()>(Err(e));
    put_digits(out, u16::from(word) as u64, Radix::Sixteen, 4)
}

pub fn taken<T: Copy>(out: &mut Sheet, made: Result<T, Unfit>) {
    match made {
        Ok(_) => ok(out),
        Err(e) => refused(out, e),
    }
}
