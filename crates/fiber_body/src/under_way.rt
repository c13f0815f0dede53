use pic_base::{CompNo, PlaceNo, TriggerNo};
use pic_machine::Parts;

/// Where a statement of more than one call goes on, and what it has made for itself.
#[derive(Clone, Copy, Debug, PartialEq, Eq)]
pub enum UnderWay {
    /// A wait for the trigger: a place is to be made for its attachment.
    Places(TriggerNo),
    /// A wait for the trigger of these parts, which has all that it needs: where a place was made the trigger
    /// is to be attached there (`at` is 2) or was (`at` is 3), and it is to be armed.
    Awaits(Parts),
    /// A wait for the trigger, which was armed.
    Awake(TriggerNo),
    /// The trigger is to be attached to the computation, at the place once that is made, and the register
    /// gets the answer.
    Attaches {
        register: u8,
        comp: CompNo,
        trigger: TriggerNo,
        place: Option<PlaceNo>,
    },
    /// A wait for the computation, as far as these parts say; the register gets the value.
    Follows {
        register: u8,
        comp: CompNo,
        parts: Parts,
    },
}
