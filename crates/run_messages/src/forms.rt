/// What stands in a field of a record.
#[derive(Clone, Copy)]
pub(crate) enum Field {
    /// The name of this thing.
    Name(&'static str),
    /// A number of this kind.
    Number(&'static Quantity),
    /// One of these words.
    Word(&'static [&'static str]),
}

/// A kind of number.
#[derive(Clone, Copy)]
pub(crate) struct Quantity {
    /// What it says.
    pub word: &'static str,
    pub least: u64,
    pub most: u64,
    /// What helps if it is not whole or out of range.
    pub advice: &'static str,
}

/// A kind of record.
#[derive(Clone, Copy)]
pub(crate) struct Form {
    pub kind: &'static str,
    /// How such a record is written.
    pub pattern: &'static str,
    /// What stands after the kind. The last may stand more than once in a list.
    pub fields: &'static [Field],
}

/// The words that may begin a record.
pub(crate) const KINDS: &[&str] = &[
    "version", "line", "rule", "period", "unit", "atom", "travel", "at", "prefer", "group",
    "crews", "note",
];

const VERSION: Quantity = Quantity {
    word: "version",
    least: 0,
    most: 999_999_999,
    advice: "Write version,2.",
};

const PERIOD: Quantity = Quantity {
    word: "period",
    least: 1,
    most: 100_000_000,
    advice: "Write the period in whole seconds: an hour is 3600, a day 86400.",
};

const SERVICE_RATE: Quantity = Quantity {
    word: "service rate",
    least: 1,
    most: 1_000_000,
    advice: "A rate is a whole number of services in a period: choose a longer period, as period,86400 for a day, and \
multiply all rates of calls and of service, or a shorter one if a rate is too large.",
};

const CALL_RATE: Quantity = Quantity {
    word: "call rate",
    least: 0,
    most: 1_000_000,
    advice: "A rate is a whole number of calls in a period: choose a longer period, as period,86400 for a day, and \
multiply all rates of calls and of service, or a shorter one if a rate is too large.",
};

const X: Quantity = Quantity {
    word: "coordinate x",
    least: 0,
    most: 1_000_000,
    advice: "Subtract the coordinates of one origin from all points, and round them, in metres for instance.",
};

const Y: Quantity = Quantity {
    word: "coordinate y",
    least: 0,
    most: 1_000_000,
    advice: "Subtract the coordinates of one origin from all points, and round them, in metres for instance.",
};

const TRAVEL_TIME: Quantity = Quantity {
    word: "travel time",
    least: 0,
    most: 100_000,
    advice: "Write whole seconds.",
};

const THOUSANDTHS: Quantity = Quantity {
    word: "part of a unit's time at an atom",
    least: 1,
    most: 1000,
    advice: "Write thousandths: 1000 for all of its time, 500 for half. Leave out what is 0.",
};

const CREWS: Quantity = Quantity {
    word: "number of crews",
    least: 1,
    most: 200,
    advice: "Write how many crews the station has. Leave out a station without crews.",
};

const FORMS: &[Form] = &[
    Form {
        kind: "version",
        pattern: "version,2",
        fields: &[Field::Number(&VERSION)],
    },
    Form {
        kind: "line",
        pattern: "line,zero or line,infinite",
        fields: &[Field::Word(&["zero", "infinite"])],
    },
    Form {
        kind: "rule",
        pattern: "rule,given or rule,strict or rule,modified",
        fields: &[Field::Word(&["given", "strict", "modified"])],
    },
    Form {
        kind: "period",
        pattern: "period,SECONDS",
        fields: &[Field::Number(&PERIOD)],
    },
    Form {
        kind: "unit",
        pattern: "unit,UNIT,RATE",
        fields: &[Field::Name("unit"), Field::Number(&SERVICE_RATE)],
    },
    Form {
        kind: "atom",
        pattern: "atom,ATOM,RATE,X,Y,UNIT",
        fields: &[
            Field::Name("atom"),
            Field::Number(&CALL_RATE),
            Field::Number(&X),
            Field::Number(&Y),
            Field::Name("unit"),
        ],
    },
    Form {
        kind: "travel",
        pattern: "travel,FROM,TO,SECONDS",
        fields: &[
            Field::Name("atom"),
            Field::Name("atom"),
            Field::Number(&TRAVEL_TIME),
        ],
    },
    Form {
        kind: "at",
        pattern: "at,UNIT,ATOM,THOUSANDTHS",
        fields: &[
            Field::Name("unit"),
            Field::Name("atom"),
            Field::Number(&THOUSANDTHS),
        ],
    },
    Form {
        kind: "prefer",
        pattern: "prefer,ATOM,UNIT,UNIT.. with one to twelve units",
        fields: &[Field::Name("atom"), Field::Name("unit")],
    },
    Form {
        kind: "group",
        pattern: "group,ATOM,UNIT,UNIT.. with one to twelve units",
        fields: &[Field::Name("atom"), Field::Name("unit")],
    },
    Form {
        kind: "crews",
        pattern: "crews,UNIT,COUNT",
        fields: &[Field::Name("unit"), Field::Number(&CREWS)],
    },
];

/// The form of the records that begin with this word.
pub(crate) fn form_of(kind: &[u8]) -> Option<&'static Form> {
    FORMS.iter().find(|form| form.kind.as_bytes() == kind)
}

impl Form {
    /// What stands in a field, counted from 1 with the kind.
    pub fn field(&self, number: u64) -> Option<Field> {
        let place = number.saturating_sub(2).min(self.fields.len() as u64) as usize;
        self.fields.get(place).or(self.fields.last()).copied()
    }
}
