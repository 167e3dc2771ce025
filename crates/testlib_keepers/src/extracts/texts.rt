//! The expected extracts: of the register after the scenario, and of a time before its end.

/// The entries that Ben sees at the end.
pub const ENTRIES: &str = r#"number,unit,party,name,class,share,amount,currency,rank,words,source
13,9,6,Sam,lease,1/1,,,,,8
16,9,4,"Bank, ""North""",mortgage,,2500000,EUR,1,,14
21,9,3,Ben,ownership,1/1,,,,,19
27,25,6,Sam,lease,1/1,,,,,8
28,25,4,"Bank, ""North""",mortgage,,2500000,EUR,1,,14
29,25,3,Ben,ownership,1/1,,,,,19
"#;

/// The entries of a party that sees none.
pub const NO_ENTRIES: &str =
    "number,unit,party,name,class,share,amount,currency,rank,words,source\n";

/// The entries that Ben saw as a member of a group, before the first transfer.
pub const OLD_ENTRIES: &str =
    r#"number,unit,party,name,class,share,amount,currency,rank,words,source
11,9,2,Anna,ownership,1/4,,,,,8
12,9,7,Anna and Ben,ownership,3/4,,,,,8
13,9,6,Sam,lease,1/1,,,,,8
16,9,4,"Bank, ""North""",mortgage,,2500000,EUR,1,,14
"#;

/// All parties.
pub const PARTIES: &str = r#"number,name,kind
1,Land Office,nonNaturalPerson
2,Anna,naturalPerson
3,Ben,naturalPerson
4,"Bank, ""North""",nonNaturalPerson
5,Nora,naturalPerson
6,Sam,naturalPerson
7,Anna and Ben,group
"#;

/// All units.
pub const UNITS: &str = "number,name,checked\n9,Garden,yes\n25,Orchard,yes\n";

/// All parcels, with their outlines.
pub const PARCELS: &str = r#"number,unit,label,square_metres,outline,source
24,9,12a,50.0000000,"POLYGON ((0 0, 5000 0, 5000 10000, 0 10000, 0 0))",22
26,25,12b,50.0000000,"POLYGON ((5000 0, 10000 0, 10000 10000, 5000 10000, 5000 0))",22
"#;

/// The only parcel before the subdivision.
pub const OLD_PARCEL: &str = r#"number,unit,label,square_metres,outline,source
10,9,12,100.0000000,"POLYGON ((0 0, 10000 0, 10000 10000, 0 10000, 0 0))",8
"#;

/// All sources.
pub const SOURCES: &str =
    "number,kind,title\n8,administrative,Deed 1\n14,administrative,Loan 1\n17,administrative,Deed 2\n19,administrative,Deed 3\n22,spatial,Plan 1\n";

/// All mutations.
pub const MUTATIONS: &str =
    "number,lodger,reference,source,lodged,act,state\n15,4,M1,14,1010,mortgage,approved\n18,5,T1,17,1012,transfer,approved\n20,5,T2,19,1014,transfer,approved\n23,6,S1,22,1016,subdivision,approved\n";
