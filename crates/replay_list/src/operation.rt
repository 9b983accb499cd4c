// The operations of the stored calls, by their numbers in the list (oracle/README.md, "The stored calls").
ghost use Rattle.replay_list.specs.Operation.{Decodes};

// What a stored call runs.
#[derive(Clone, Copy, Debug, PartialEq, Eq)]
pub enum Operation {
    Sqrt,
    Sum,
    Norm,
    Qr,
    Nnls,
    Ldp,
    Lsi,
    Lsei,
    Identity,
    Times,
    Cholesky,
    Update,
    Step,
    PackedIdentity,
    PackedTimes,
    PackedCholesky,
    PackedUpdate,
    Day,
    StrictStep,
    Check,
    Begin,
    Tell,
    Suspect,
    Settle,
    Certify,
}

// A number that no operation has.
#[derive(Clone, Copy, Debug, PartialEq, Eq)]
pub struct UnknownOperation(pub u64);

impl TryFrom<u64> for Operation {
    type Error = UnknownOperation;

    ghost try_from_gives = { Decodes };

    fn try_from(number: u64) -> Result<Self, UnknownOperation> {
        match number {
            0 => Ok(Operation::Sqrt),
            1 => Ok(Operation::Sum),
            2 => Ok(Operation::Norm),
            3 => Ok(Operation::Qr),
            4 => Ok(Operation::Nnls),
            5 => Ok(Operation::Ldp),
            6 => Ok(Operation::Lsi),
            7 => Ok(Operation::Lsei),
            8 => Ok(Operation::Identity),
            9 => Ok(Operation::Times),
            10 => Ok(Operation::Cholesky),
            11 => Ok(Operation::Update),
            12 => Ok(Operation::Step),
            13 => Ok(Operation::PackedIdentity),
            14 => Ok(Operation::PackedTimes),
            15 => Ok(Operation::PackedCholesky),
            16 => Ok(Operation::PackedUpdate),
            17 => Ok(Operation::Day),
            18 => Ok(Operation::StrictStep),
            19 => Ok(Operation::Check),
            20 => Ok(Operation::Begin),
            21 => Ok(Operation::Tell),
            22 => Ok(Operation::Suspect),
            23 => Ok(Operation::Settle),
            24 => Ok(Operation::Certify),
            _ => Err(UnknownOperation(number)),
        }
    }
}
