// What the commands set up, as the record keeps it and a call is lent it: a byte of settings, one of the minimum length, the own address, the
// filter. docs/record.md, bytes 240 to 255.
ghost use Rattle.std.specs.Prelude.{◌≡◌, ◌<◌, ◌^◌};
ghost use Rattle.actions.specs.Setup.{Setup};
ghost use Rattle.phases.specs.Forms.{form_number};
ghost use Rattle.packed.specs.SetUp.{joined_settings, modes_in, form_at, SetIs};

// Where each stands.
pub const SETTINGS: usize = 0;

pub const MINIMUM: usize = 1;

pub const OWN: usize = 2;

pub const FILTER: usize = 8;

pub const SIZE: usize = 16;

// The byte of settings: save bad; above it the modes, which are promiscuous and, above that, broadcast disabled; above them the form.
const SAVES_BAD: u64 = 1 << 0;

const MODES: u8 = 1 << 1;

const PROMISCUOUS: u64 = MODES as u64;

const NO_BROADCAST: u64 = PROMISCUOUS << 1;

const MODE_SETS: u8 = 1 << 2;

const FORM: u8 = 1 << 3;

// Whether bad frames are saved.
#[tactic(auto, using(crate::proofs::SetUps::saves_is))]
pub fn saves_bad(setup: &[u8; SIZE]) -> bool
    ensures { (s : Setup) → SetIs s setup.now → result ≡ s.settings.savebad }
{
    crate::has::<SAVES_BAD>(setup[SETTINGS] as u64)
}

// Whether every frame is for us.
#[tactic(auto, using(crate::proofs::SetUps::promiscuous_is))]
pub fn promiscuous(setup: &[u8; SIZE]) -> bool
    ensures { (s : Setup) → SetIs s setup.now → result ≡ s.settings.promiscuous }
{
    crate::has::<PROMISCUOUS>(setup[SETTINGS] as u64)
}

// Whether broadcast is disabled.
#[tactic(auto, using(crate::proofs::SetUps::broadcast_is))]
pub fn no_broadcast(setup: &[u8; SIZE]) -> bool
    ensures { (s : Setup) → SetIs s setup.now → result ≡ s.settings.nobroadcast }
{
    crate::has::<NO_BROADCAST>(setup[SETTINGS] as u64)
}

// The form of the frames that go and come now.
#[tactic(auto, using(crate::proofs::SetUps::form_is_lem))]
pub fn form(setup: &[u8; SIZE]) -> u64
    ensures { (result < 2 ^ 5) × ((s : Setup) → SetIs s setup.now → result ≡ form_number s.settings.form) }
{
    form_of(setup[SETTINGS])
}

// The minimum frame length.
#[tactic(auto, using(crate::proofs::SetUps::minimum_is))]
pub fn minimum(setup: &[u8; SIZE]) -> u64
    ensures { (result < 2 ^ 8) × ((s : Setup) → SetIs s setup.now → result ≡ s.settings.minimum) }
{
    setup[MINIMUM] as u64
}

// The filter.
#[tactic(auto, using(crate::proofs::SetUps::filter_is))]
pub fn filter(setup: &[u8; SIZE]) -> u64
    ensures { (s : Setup) → SetIs s setup.now → result ≡ s.filter }
{
    numerals::read::<8>(setup, FILTER)
}

// The byte of settings: save bad, the modes, the form.
pub fn settings(save_bad: u8, modes: u8, form: u8) -> u8
    requires { (save_bad < 2) × (modes < 2 ^ 2) × (form < 2 ^ 4) }
    ensures { result ≡ joined_settings save_bad modes form }
{
    save_bad + MODES * modes + FORM * form
}

// The modes of a byte of settings.
pub fn modes(settings: u8) -> u8
    ensures { (result ≡ modes_in settings) × (result < 2 ^ 2) }
{
    settings / MODES % MODE_SETS
}

// The form of a byte of settings.
pub fn form_of(settings: u8) -> u64
    ensures { (result ≡ form_at settings) × (result < 2 ^ 5) }
{
    (settings / FORM) as u64
}
