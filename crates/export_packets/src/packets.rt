// Packets, for C and Rust.
ghost use Rattle.std.specs.Prelude.{◌≡◌};
ghost use Rattle.export_numbers.specs.Crossing.{settings_of};
ghost use Rattle.export_packets.specs.Calls.{fetch_answer, accept_answer, take_answer, pack_answer, pack_output};

use export_fields::{CetskobiAccepted, CetskobiFetched, CetskobiWritten};
use export_numbers::CetskobiSettings;
use hermes::Settings;
use packet_format::Taken;

// Message i of a packet, read in a group with these settings.
#[unsafe(no_mangle)]
pub extern "C" fn cetskobi_fetch(
    settings: CetskobiSettings,
    packet: &[u8],
    i: usize,
) -> CetskobiFetched
    ensures { result ≡ fetch_answer (settings_of settings).rule packet.now i }
{
    packet_reader::fetch(Settings::from(settings).rule, packet, i).into()
}

// The facts of a packet, for all of its messages, in a group with these settings: questions 20, 27, 21 and 22.
#[unsafe(no_mangle)]
pub extern "C" fn cetskobi_accept(settings: CetskobiSettings, packet: &[u8]) -> CetskobiAccepted
    ensures { result ≡ accept_answer (settings_of settings).rule packet.now }
{
    packet_reader::accept(Settings::from(settings).rule, packet).into()
}

// Message i of a packet by its facts, in constant time; whatever facts they are.
#[unsafe(no_mangle)]
pub extern "C" fn cetskobi_fetch_accepted(
    packet: &[u8],
    accepted: CetskobiAccepted,
    i: usize,
) -> CetskobiFetched
    ensures { result ≡ take_answer packet.now accepted i }
{
    // A return in each case: the compiler then writes the numbers straight into the answer. Of two cases joined it carries all nine in registers first.
    match packet_reader::take(packet, accepted.into(), i) {
        Ok(fields) => {
            return fields.into();
        }
        Err(no) => {
            return Taken::Err(no).into();
        }
    }
}

// A packet of messages, seven words for each, whose bodies stand end to end, in a group with these settings.
#[unsafe(no_mangle)]
pub extern "C" fn cetskobi_pack(
    settings: CetskobiSettings,
    messages: &[u32],
    bodies: &[u8],
    out: &mut [u8],
) -> CetskobiWritten
    ensures { (result ≡ pack_answer messages.now bodies.now out.old)
        × (out.new ≡ pack_output (settings_of settings).rule messages.now bodies.now out.old) }
{
    packet_writer::write(Settings::from(settings).rule, messages, bodies, out).into()
}
