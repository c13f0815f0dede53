use pic_base::Limits;

/// The limits of the machine that scripts run on.
pub const LIMITS: Limits = Limits {
    fibers: 128,
    triggers: 262_144,
    places: 262_144,
    comps: 65_536,
};

/// How many bytes a script may have.
pub const MOST_BYTES: usize = 16_777_216;
