// What one device does with a byte that arrives at one of its ports (draft 000, 2.2 and 2.3).
// An Interrupt-Code and an acknowledge go by one rule, over the kind.
#![tactic(auto)]

ghost use Rattle.std.specs.Prelude.{◌≡◌};
ghost use Rattle.device.specs.Kinds.{kind_of, Names};
ghost use Rattle.device.specs.Permissions.{may_send, may_receive};
ghost use Rattle.device.specs.Reaction.{marked as reaction_marked, next_time, passed_on, is_used, bars_of, ruled as reaction_ruled, counted as reaction_counted, reacts};

use codes::Code;

// The kind of a code that has an identifier: 0 interrupt, 1 acknowledge.
#[derive(Clone, Copy, Debug, PartialEq, Eq)]
pub enum Kind {
    Interrupt,
    Acknowledge,
}

// A number that is no kind.
#[derive(Clone, Copy, Debug, PartialEq, Eq)]
pub struct UnknownKind(pub u8);

impl TryFrom<u8> for Kind {
    type Error = UnknownKind;

    ghost try_from_gives = { Names };

    fn try_from(number: u8) -> Result<Self, UnknownKind> {
        match number {
            0 => Ok(Kind::Interrupt),
            1 => Ok(Kind::Acknowledge),
            _ => Err(UnknownKind(number)),
        }
    }
}

impl Kind {
    // Its number in RULES, which is also the bit that it has to find in a register.
    pub fn number(self) -> u8
        ensures { result ≡ kind_of self }
    {
        match self {
            Kind::Interrupt => 0,
            Kind::Acknowledge => 1,
        }
    }

    // May a port with these permissions send codes of the kind?
    #[tactic(auto, unfolding(crate::specs::Permissions::may_send))]
    pub fn may_send(self, permissions: u32) -> bool
        ensures { result ≡ may_send (kind_of self) permissions }
    {
        bits::get(permissions, 2 * u32::from(self.number())) == 1
    }

    // May it receive them?
    #[tactic(auto, unfolding(crate::specs::Permissions::may_receive))]
    pub fn may_receive(self, permissions: u32) -> bool
        ensures { result ≡ may_receive (kind_of self) permissions }
    {
        bits::get(permissions, 2 * u32::from(self.number()) + 1) == 1
    }

    // The register once a code of the kind was accepted: an interrupt sets the bit, an acknowledge
    // clears it.
    #[tactic(auto, unfolding(crate::specs::Reaction::marked))]
    pub fn marked(self, register: u32, k: u32) -> u32
        ensures { result ≡ reaction_marked (kind_of self) register k }
    {
        match self {
            Kind::Interrupt => bits::join(register, k),
            Kind::Acknowledge => bits::leave(register, k),
        }
    }

    // Does the profile of an identifier know codes of the kind? An event has no acknowledge (000, 2.4).
    #[tactic(auto, unfolding(crate::specs::Reaction::is_used))]
    pub fn is_used(self, events: u32, k: u32) -> bool
        ensures { result ≡ is_used events (kind_of self) k }
    {
        match self {
            Kind::Interrupt => true,
            Kind::Acknowledge => bits::get(events, k) == 0,
        }
    }
}

// What becomes of the code.
#[derive(Clone, Copy, Debug, PartialEq, Eq)]
pub enum Action {
    Named(Code),
    LinkError(Code),
    Ignored(Code),
    Forwarded(Code),
    Told(Code),
    Dropped(Code),
}

// The port's side of a reaction: whether its device is a router, whether it runs, its permissions, which
// identifiers are events, that nobody acknowledges, and which it is to bar, by the kind of code. A node
// does not look at the last.
#[derive(Clone, Copy, Debug, PartialEq, Eq)]
pub struct Side {
    pub router: bool,
    pub running: bool,
    pub permissions: u32,
    pub events: u32,
    pub barred: [u32; 2],
}

// The register and the counter afterwards, and what becomes of the code.
#[derive(Clone, Copy, Debug, PartialEq, Eq)]
pub struct Reaction {
    pub register: u32,
    pub counter: u32,
    pub action: Action,
}

// ---- the same by the number of a kind, for whoever has no more of it: `may_send`, `may_receive`,
// `marked` and `is_used` are public, and may not change

// May a port with these permissions send codes of the kind with this number? There are kinds 0 and 1,
// and no port may send another.
#[tactic(auto, unfolding(crate::specs::Permissions::may_send))]
pub fn may_send(kind: u8, permissions: u32) -> bool
    ensures { result ≡ may_send kind permissions }
{
    match Kind::try_from(kind) {
        Ok(kind) => kind.may_send(permissions),
        Err(_) => false,
    }
}

// May it receive them?
#[tactic(auto, unfolding(crate::specs::Permissions::may_receive))]
pub fn may_receive(kind: u8, permissions: u32) -> bool
    ensures { result ≡ may_receive kind permissions }
{
    match Kind::try_from(kind) {
        Ok(kind) => kind.may_receive(permissions),
        Err(_) => false,
    }
}

// The register once a code of the kind with this number was accepted. A number that is no kind changes
// nothing.
#[tactic(auto, unfolding(crate::specs::Reaction::marked))]
pub fn marked(kind: u8, register: u32, k: u8) -> u32
    ensures { result ≡ reaction_marked kind register k }
{
    match Kind::try_from(kind) {
        Ok(kind) => kind.marked(register, u32::from(k)),
        Err(_) => register,
    }
}

// Does the profile of an identifier know codes of the kind with this number? Of a number that is no
// kind it is asked as of an acknowledge.
#[tactic(auto, unfolding(crate::specs::Reaction::is_used))]
pub fn is_used(events: u32, kind: u8, k: u32) -> bool
    ensures { result ≡ is_used events kind k }
{
    if kind == 0 {
        return true;
    }
    Kind::Acknowledge.is_used(events, k)
}

// ---- the reaction

// The value of a Time-Code that follows upon a counter: 0 comes after 63. A counter above 63 counts
// as its remainder by 64.
pub fn next_time(counter: u32) -> u32
    ensures { result ≡ next_time counter }
{
    (counter % 64 + 1) % 64
}

// The reaction to a byte. Only an Interrupt-Code and an acknowledge get as far as the register, and
// only a Time-Code changes the counter. The tests stand one in the other, by `let .. else`: a form
// that the project asks for here (DECISIONS 136).
#[tactic(auto, unfolding(crate::specs::Reaction::reacts, crate::specs::Reaction::reacts_to))]
pub fn react(side: Side, register: u32, counter: u32, byte: u8) -> Reaction
    ensures { result ≡ reacts side register counter byte }
{
    let code = codes::read(byte);
    let Code::Interrupt(k) = code else {
        let Code::Acknowledge(k) = code else {
            let Code::Time(v) = code else {
                return outcome(register, counter, Action::Named(code));
            };
            return counted(side, register, counter, v);
        };
        return ruled(side, register, counter, Kind::Acknowledge, k, code);
    };
    ruled(side, register, counter, Kind::Interrupt, k, code)
}

// The three parts together.
fn outcome(register: u32, counter: u32, action: Action) -> Reaction
    ensures { result ≡ record { register = register; counter = counter; action = action } }
{
    Reaction {
        register,
        counter,
        action,
    }
}

// A router forwards a code, a node tells its host.
fn passed_on(router: bool, code: Code) -> Action
    ensures { result ≡ passed_on router code }
{
    if router {
        return Action::Forwarded(code);
    }
    Action::Told(code)
}

// A Time-Code: its value is the counter's from now on, and it is passed on where it is one more.
#[tactic(auto, unfolding(crate::specs::Reaction::counted))]
fn counted(side: Side, register: u32, counter: u32, v: u8) -> Reaction
    ensures { result ≡ reaction_counted side register counter v }
{
    let code = Code::Time(v);
    let next = next_time(counter);
    if u32::from(v) != next {
        return outcome(register, u32::from(v), Action::Named(code));
    }
    outcome(register, u32::from(v), passed_on(side.router, code))
}

// What a port bars of codes of the kind, as a set. Only a router's port bars anything.
#[tactic(auto, unfolding(crate::specs::Reaction::bars_of))]
fn bars_of(side: Side, kind: Kind) -> u32
    ensures { result ≡ bars_of side (kind_of kind) }
{
    if !side.router {
        return 0;
    }
    let [interrupts, acknowledges] = side.barred;
    match kind {
        Kind::Interrupt => interrupts,
        Kind::Acknowledge => acknowledges,
    }
}

// The rule for a code of a kind with its identifier. The bit has to stand as the kind's own number:
// 0 before an interrupt, 1 before an acknowledge.
#[tactic(auto, unfolding(crate::specs::Reaction::ruled))]
fn ruled(side: Side, register: u32, counter: u32, kind: Kind, k: u8, code: Code) -> Reaction
    ensures { result ≡ reaction_ruled side register counter (kind_of kind) k code }
{
    if !side.running {
        return outcome(register, counter, Action::LinkError(code));
    }
    let k = u32::from(k);
    if !kind.may_receive(side.permissions) {
        return outcome(register, counter, Action::Ignored(code));
    }
    let bars = bars_of(side, kind);
    if bits::get(bars, k) != 0 {
        return outcome(register, counter, Action::Dropped(code));
    }
    if !kind.is_used(side.events, k) {
        return outcome(register, counter, Action::Ignored(code));
    }
    if bits::get(register, k) != u32::from(kind.number()) {
        return outcome(register, counter, Action::Ignored(code));
    }
    let next = kind.marked(register, k);
    outcome(next, counter, passed_on(side.router, code))
}
