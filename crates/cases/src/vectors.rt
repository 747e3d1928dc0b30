// Fletcher's sums: 01's own cases, the published vectors, and more bytes than the library sums before it reduces.
use crate::say::Named;
use console::StandardOutput;

fn sums(out: &mut StandardOutput, name: &str, bytes: &[u8]) {
    let sums = fletcher::sums_of(bytes);
    writeln!(
        out,
        "sums of {name}:{}{}",
        Named("A", sums.a),
        Named("B", sums.b)
    );
}

pub(crate) fn run(out: &mut StandardOutput) {
    sums(out, "no bytes", b"");
    sums(out, "the byte 255", b"\xff");
    sums(out, "abcde", b"abcde");
    sums(out, "abcdef", b"abcdef");
    sums(out, "abcdefgh", b"abcdefgh");
    sums(out, "5000 ones", &[1; 5000]);
    sums(out, "4097 times 254", &[254; 4097]);
}
