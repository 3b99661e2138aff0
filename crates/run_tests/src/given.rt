//! Traces, and their reports.

pub const STORED: &str = concat!(
    "{\"kqsim\":1}\n",
    "{\"op\":\"proc\",\"pid\":1}\n",
    "{\"op\":\"kqueue\",\"pid\":1,\"fd\":9}\n",
    "{\"op\":\"kevent\",\"pid\":1,\"fd\":9,",
    "\"changes\":[{\"ident\":7,\"filter\":\"USER\",\"flags\":[\"ADD\"],\"fflags\":5}],\"room\":4}\n",
    "{\"op\":\"kevent\",\"pid\":1,\"fd\":9,",
    "\"changes\":[{\"ident\":7,\"filter\":\"USER\",\"flags\":[],\"fflags\":16777216}],\"room\":0}\n",
    "{\"op\":\"kevent\",\"pid\":1,\"fd\":9,\"changes\":[],\"room\":4}\n",
    "{\"op\":\"kevent\",\"pid\":1,\"fd\":9,\"changes\":[],\"room\":4}\n",
);

pub const REPORT: &str = concat!(
    "{\"at\":3,\"events\":[]}\n",
    "{\"at\":4,\"events\":[]}\n",
    "{\"at\":5,\"events\":[{\"data\":0,\"fflags\":5,\"filter\":\"USER\",\"flags\":[],\"ident\":7,\"udata\":0}]}\n",
    "{\"at\":6,\"events\":[{\"data\":0,\"fflags\":5,\"filter\":\"USER\",\"flags\":[],\"ident\":7,\"udata\":0}]}\n",
    "{\"calls\":4,\"events\":2,\"records\":6}\n",
);

// A child keeps a socket open whose number its parent reuses.
pub const FORKED: &str = concat!(
    "{\"kqsim\":1}\n",
    "{\"op\":\"proc\",\"pid\":1}\n",
    "{\"op\":\"kqueue\",\"pid\":1,\"fd\":9}\n",
    "{\"op\":\"kqueue\",\"pid\":1,\"fd\":10}\n",
    "{\"op\":\"socket\",\"pid\":1,\"fd\":3,\"rcv\":100,\"snd\":100}\n",
    "{\"op\":\"connect\",\"pid\":1,\"fd\":3}\n",
    "{\"op\":\"socket\",\"pid\":1,\"fd\":5,\"rcv\":100,\"snd\":100}\n",
    "{\"op\":\"fork\",\"pid\":1,\"child\":2}\n",
    "{\"op\":\"kqueue\",\"pid\":2,\"fd\":9}\n",
    "{\"op\":\"kevent\",\"pid\":1,\"fd\":9,",
    "\"changes\":[{\"ident\":3,\"filter\":\"READ\",\"flags\":[\"ADD\"]}],\"room\":0}\n",
    "{\"op\":\"kevent\",\"pid\":1,\"fd\":10,",
    "\"changes\":[{\"ident\":3,\"filter\":\"READ\",\"flags\":[\"ADD\"]}],\"room\":0}\n",
    "{\"op\":\"kevent\",\"pid\":2,\"fd\":9,",
    "\"changes\":[{\"ident\":3,\"filter\":\"READ\",\"flags\":[\"ADD\"]}],\"room\":0}\n",
    "{\"op\":\"rx\",\"pid\":1,\"fd\":3,\"n\":1}\n",
    "{\"op\":\"dup\",\"pid\":1,\"fd\":5,\"to\":3}\n",
    "{\"op\":\"kevent\",\"pid\":1,\"fd\":9,\"changes\":[],\"room\":1}\n",
    "{\"op\":\"kevent\",\"pid\":1,\"fd\":10,\"changes\":[],\"room\":1}\n",
    "{\"op\":\"kevent\",\"pid\":2,\"fd\":9,\"changes\":[],\"room\":1}\n",
    "{\"op\":\"kevent\",\"pid\":1,\"fd\":9,",
    "\"changes\":[{\"ident\":3,\"filter\":\"READ\",\"flags\":[\"DELETE\"]}],\"room\":1}\n",
);
