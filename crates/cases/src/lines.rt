// Writes one line for a call: its name, its number, and what it left.

// The descriptor of standard output.
pub const STDOUT: i32 = 1;

// `NAME: NUMBER`, the start of a line.
pub fn tell_number(name: &[u8], number: u32) {
    io::write_all(STDOUT, name);
    io::write_all(STDOUT, b": ");
    io::print_decimal(STDOUT, u64::from(number));
}

// `, NAME COUNT`
pub fn tell_count(name: &[u8], count: u64) {
    io::write_all(STDOUT, b", ");
    io::write_all(STDOUT, name);
    io::write_all(STDOUT, b" ");
    io::print_decimal(STDOUT, count);
}

// The digits of a float's bits, or `nan`: a NaN has no bits that a contract could name.
fn tell_float(x: f64) {
    io::write_all(STDOUT, b" ");
    if x != x {
        io::write_all(STDOUT, b"nan");
        return;
    }
    io::print_hex(STDOUT, f64::to_bits(x), 16);
}

// `, NAME H H ..`
pub fn tell_floats(name: &[u8], xs: &[f64]) {
    io::write_all(STDOUT, b", ");
    io::write_all(STDOUT, name);
    for &x in xs {
        tell_float(x);
    }
}

// The end of a line.
pub fn end_line() {
    io::write_all(STDOUT, b"\n");
}

// A line for a call that leaves one list, told with number 0.
pub fn tell_call(name: &[u8], number: u32, label: &[u8], xs: &[f64]) {
    tell_number(name, number);
    if number == 0 {
        tell_floats(label, xs);
    }
    end_line();
}
