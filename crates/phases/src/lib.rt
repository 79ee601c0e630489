// Phases: where the wire stands in the protocol, and where it goes after each slot (docs/RULES.md, section 10).
// Free, or in a subtree of the time tree, or in a subtree of the static tree for one time leaf.
// Uses rows for the channel's state, and trees for the next subtree.
//
//   free --collision--> time (0, F/m) --..--> time leaf p --collision--> static (0, q/m) for p --..--> time, after p
//   time search over: free where something was sent in it, else the reference time grows and it starts anew
#![tactic(auto)]

ghost use Rattle.std.specs.Prelude.{◌≡◌, ◌≤◌};
ghost use Rattle.phases.specs.After.{time_start, time_over, time_on, static_on, time_down, after};
ghost use Rattle.phases.specs.Work.{Grown, Sound, Within, next_in};

use rows::Channel;

// A tree: branches at each node, leaves in all.
#[repr(C)]
#[derive(Clone, Copy)]
pub struct Shape {
    pub branches: u32,
    pub leaves: u32,
}

// The numbers of a shop: stations, class width, offset, compression factor, the time tree and the tree of static indices.
#[repr(C)]
#[derive(Clone, Copy)]
pub struct Shop {
    pub stations: u32,
    pub width: u32,
    pub offset: u32,
    pub compression: u32,
    pub time: Shape,
    pub index: Shape,
}

// Where the wire stands. A static search belongs to the time leaf on which stations collided.
#[derive(Clone, Copy)]
pub enum Standing {
    Free,
    Time { first: u32, width: u32 },
    Static { first: u32, width: u32, leaf: u32 },
}

// All that changes from slot to slot but the messages; `sent` is whether this time search has sent anything.
#[derive(Clone, Copy)]
pub struct State {
    pub reference: u64,
    pub slot: u32,
    pub sent: bool,
    pub standing: Standing,
}

impl Shape {
    // The width of the next subtree where a search has finished those before leaf `end`; none where no leaf remains.
    fn next_width(self, end: u32) -> Option<u32>
        requires { Grown self.branches self.leaves }
        ensures { result ≡ next_in self end }
    {
        if end < self.leaves {
            Some(trees::next_width(self.branches, self.leaves, end))
        } else {
            None
        }
    }
}

impl Shop {
    // Where a new time search starts; the root counts as searched.
    fn time_start(self) -> Standing
        requires { Sound self }
        ensures { result ≡ time_start self }
    {
        Standing::Time {
            first: 0,
            width: self.time.leaves / self.time.branches,
        }
    }

    // Where a collision in a time subtree leads: to its first child, or from a leaf into the static search.
    fn below(self, first: u32, width: u32) -> Standing
        requires { Sound self }
        ensures { result ≡ time_down self first width }
    {
        if 1 < width {
            Standing::Time {
                first,
                width: width / self.time.branches,
            }
        } else {
            Standing::Static {
                first: 0,
                width: self.index.leaves / self.index.branches,
                leaf: first,
            }
        }
    }
}

impl State {
    // The reference time becomes the present slot.
    fn caught_up(self) -> State
        ensures { result ≡ record self { reference = self.slot } }
    {
        State {
            reference: u64::from(self.slot),
            ..self
        }
    }

    // The time search is over.
    fn time_over(self, shop: Shop) -> State
        requires { Sound shop × (self.reference ≤ 9000000000000) }
        ensures { result ≡ time_over shop self.slot self.reference self.sent }
    {
        if self.sent {
            return State {
                standing: Standing::Free,
                ..self
            };
        }
        State {
            reference: self.reference + u64::from(shop.compression * shop.width),
            standing: shop.time_start(),
            ..self
        }
    }

    // The time subtree that ends at leaf `end` is finished.
    fn time_on(self, shop: Shop, end: u32) -> State
        requires { Sound shop × (self.reference ≤ 9000000000000) }
        ensures { result ≡ time_on shop self.slot self.reference self.sent end }
    {
        match shop.time.next_width(end) {
            Some(width) => State {
                standing: Standing::Time { first: end, width },
                ..self
            },
            None => self.time_over(shop),
        }
    }

    // The static subtree that ends at index `end`, for the time leaf, is finished.
    fn static_on(self, shop: Shop, end: u32, leaf: u32) -> State
        requires { Sound shop × (leaf ≤ 1024) }
        ensures { result ≡ static_on shop self.slot self.reference self.sent end leaf }
    {
        match shop.index.next_width(end) {
            Some(width) => State {
                standing: Standing::Static {
                    first: end,
                    width,
                    leaf,
                },
                ..self
            },
            None => self.caught_up().time_on(shop, leaf + 1),
        }
    }
}

// The state after an event that showed the channel's state and ended before the slot.
pub fn after_event(shop: Shop, state: State, slot: u32, channel: Channel) -> State
    requires { Sound shop × Within shop state.standing × (state.reference ≤ 9000000000000) }
    ensures { result ≡ after shop slot state channel }
{
    let state = State { slot, ..state };
    let heard = State {
        sent: true,
        ..state
    };
    match (state.standing, channel) {
        (Standing::Free, Channel::Silence | Channel::Busy) => state,
        (Standing::Free, Channel::Collision) => State {
            sent: false,
            standing: shop.time_start(),
            ..state.caught_up()
        },
        (Standing::Time { first, width }, Channel::Silence) => state.time_on(shop, first + width),
        (Standing::Time { first, width }, Channel::Busy) => {
            heard.caught_up().time_on(shop, first + width)
        }
        (Standing::Time { first, width }, Channel::Collision) => State {
            standing: shop.below(first, width),
            ..state
        },
        (Standing::Static { first, width, leaf }, Channel::Silence) => {
            state.static_on(shop, first + width, leaf)
        }
        (Standing::Static { first, width, leaf }, Channel::Busy) => {
            heard.static_on(shop, first + width, leaf)
        }
        (Standing::Static { first, width, leaf }, Channel::Collision) => {
            let width = width / shop.index.branches;
            State {
                standing: Standing::Static { first, width, leaf },
                ..state
            }
        }
    }
}
