// Fresh start and view, for C and Rust.
ghost use Rattle.std.specs.Prelude.{◌≡◌};
ghost use Rattle.hermes.specs.Node.{view};
ghost use Rattle.export_numbers.specs.Crossing.{settings_of, replica_of, admission_out};
ghost use Rattle.export_membership.specs.Admission.{StartDone};

use export_numbers::{CetskobiAdmission, CetskobiReplica, CetskobiSettings};
use hermes::Settings;

// A change of view. A refused one gives the identity as it was.
#[unsafe(no_mangle)]
pub extern "C" fn cetskobi_view(me: CetskobiReplica, epoch: u32, set: u16) -> CetskobiAdmission
    ensures { result ≡ admission_out (view (replica_of me) epoch set) me }
{
    CetskobiAdmission::of(replica_membership::view(me.into(), epoch, set), me)
}

// A fresh start of the replica of this number, with this first view, in a group with these settings: every record fresh, the store zero. A refused one changes nothing.
#[unsafe(no_mangle)]
pub extern "C" fn cetskobi_start(
    number: u8,
    view: u16,
    settings: CetskobiSettings,
    table: &mut [u8],
    store: &mut [u8],
) -> CetskobiAdmission
    ensures { StartDone number view (settings_of settings) table.old store.old result table.new store.new }
{
    let settings = Settings::from(settings);
    let count = export_records::count(table.len());
    let admission = replica_membership::admit(number, view, settings, count, store.len());
    if admission.is_ok() {
        export_storing::fill(table, replica_membership::fresh_record(view));
        replica_start::zero(store);
    }
    let newcomer = CetskobiReplica {
        number,
        settings: settings.into(),
        view,
        epoch: 0,
    };
    CetskobiAdmission::of(admission, newcomer)
}
