// The device, held in the register strip that a run is lent and in the number of the samples that were due so far. Register 0 has only its
// flags there: bit 7 is made of them and the mask where the register is got, and at the end of a run. Samples are looked after only where a
// lesson looks at the device, and at the end of a run.
ghost use Rattle.std.specs.Prelude.{◌≡◌, ◌+◌, ◌/◌, ◌≤◌, ◌<◌, ◌||◌, leb, [], get_or, set, length};
ghost use Rattle.base.specs.Codes.{registers_count};
ghost use Rattle.device.specs.Device as Device;
ghost use Rattle.device.specs.promises.Holding.{held_in, device_of, registers_of, Rests, Alters, Looks};

// How many registers there are. The strip is a slice and no array, since it is lent from C (engine_run): so each function asks for its length.
pub const REGISTERS: usize = 16;

// The registers that mean something to the device, by their places in the strip: the flags, the mask, the last sample.
const FLAGS: usize = 0;

const MASK: usize = 1;

const READING: usize = 2;

// Every register is 0, as a run begins.
pub fn reset(strip: &mut [u8])
    requires { length strip.old ≡ registers_count }
    ensures { Rests (held_in strip.new 0) }
{
    strip.fill(0);
}

// Whether a sample arrived.
fn has_arrived(strip: &[u8]) -> bool
    requires { length strip.now ≡ registers_count }
    ensures { result ≡ Device.bit 0 (get_or strip.now 0 0) }
{
    strip[FLAGS] % 2 == 1
}

// Whether one was lost.
fn has_lost(strip: &[u8]) -> bool
    requires { length strip.now ≡ registers_count }
    ensures { result ≡ Device.bit 1 (get_or strip.now 0 0) }
{
    strip[FLAGS] / 2 % 2 == 1
}

// Bit 7 of register 0.
fn alarm(strip: &[u8]) -> bool
    requires { length strip.now ≡ registers_count }
    ensures { result ≡ Device.alarm (device_of [] (held_in strip.now 0)) }
{
    (has_arrived(strip) && strip[MASK] % 2 == 1) || (has_lost(strip) && strip[MASK] / 2 % 2 == 1)
}

// Bits 0 and 1 of register 0.
fn flags(arrived: bool, lost: bool) -> u8
    ensures { (result ≡ Device.bit_value 0 arrived + Device.bit_value 1 lost) × (result ≤ 3) }
{
    u8::from(arrived) + 2 * u8::from(lost)
}

// Register 0.
fn status(strip: &[u8]) -> u8
    requires { length strip.now ≡ registers_count }
    ensures { result ≡ Device.status (device_of [] (held_in strip.now 0)) }
{
    flags(has_arrived(strip), has_lost(strip)) + 128 * u8::from(alarm(strip))
}

// What is got from a register.
pub fn value(strip: &[u8], register: usize) -> u8
    requires { (length strip.now ≡ registers_count) × (register < registers_count) }
    ensures { result ≡ get_or (registers_of (held_in strip.now 0)) register 0 }
{
    match register {
        FLAGS => status(strip),
        _ => strip[register],
    }
}

// The device with other flags.
fn set_flags(strip: &mut [u8], arrived: bool, lost: bool)
    requires { length strip.old ≡ registers_count }
    ensures { strip.new ≡ set strip.old 0 (Device.bit_value 0 arrived + Device.bit_value 1 lost) }
{
    strip[FLAGS] = flags(arrived, lost);
}

// The device after a register is got.
pub fn get(strip: &mut [u8], register: usize)
    requires { length strip.old ≡ registers_count }
    ensures { Alters (Device.after_get register) strip.old strip.new }
{
    if register == READING {
        let lost = has_lost(strip);
        set_flags(strip, false, lost);
    }
}

// The device after a byte is put to register 0.
fn clear(strip: &mut [u8], byte: u8)
    requires { length strip.old ≡ registers_count }
    ensures { Alters (Device.after_put 0 byte) strip.old strip.new }
{
    let arrived = has_arrived(strip) && byte % 2 != 1;
    let lost = has_lost(strip) && byte / 2 % 2 != 1;
    set_flags(strip, arrived, lost);
}

// The device after a byte is put to a register.
pub fn put(strip: &mut [u8], register: usize, byte: u8)
    requires { (length strip.old ≡ registers_count) × (register < registers_count) }
    ensures { Alters (Device.after_put register byte) strip.old strip.new }
{
    match register {
        FLAGS => clear(strip, byte),
        READING => {}
        _ => strip[register] = byte,
    }
}

// Whether a sample is lost: one was before, or one that arrived before was not got, or there are more now.
fn loses(strip: &[u8], more: usize) -> bool
    requires { length strip.now ≡ registers_count }
    ensures { result ≡ ((Device.bit 1 (get_or strip.now 0 0) || Device.bit 0 (get_or strip.now 0 0)) || leb 1 more) }
{
    has_lost(strip) || has_arrived(strip) || 1 <= more
}

// Takes the last sample that is due and on the tape, where so many were due before; samples past the tape's end change nothing.
fn sample(tape: &[u8], strip: &mut [u8], taken: usize, due: usize)
    requires { length strip.old ≡ registers_count }
    ensures { Looks tape.now due (held_in strip.old taken) (held_in strip.new due) }
{
    let last = due.min(tape.len());
    if taken < last {
        let lost = loses(strip, last - taken - 1);
        set_flags(strip, true, lost);
        strip[READING] = tape[last - 1];
    }
}

// How many steps lie between two samples.
const PERIOD: usize = 100;

// A look at the device after so many steps: how many samples were due by then.
pub fn catch_up(tape: &[u8], strip: &mut [u8], taken: usize, steps: usize) -> usize
    requires { length strip.old ≡ registers_count }
    ensures { Looks tape.now (steps / Device.period) (held_in strip.old taken) (held_in strip.new result) }
{
    let due = steps / PERIOD;
    sample(tape, strip, taken, due);
    due
}

// The strip at the end of a run: register 0 is completed.
pub fn show(strip: &mut [u8])
    requires { length strip.old ≡ registers_count }
    ensures { strip.new ≡ registers_of (held_in strip.old 0) }
{
    strip[FLAGS] = status(strip);
}
