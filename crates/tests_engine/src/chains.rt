//! Chains of LET, each of whose definitions seeks what those before it made.

use crate::texts::{Case, Row, check};

const RECORDS: [Row; 2] = [
    (&["main"], &[("x", "3"), ("y", "5")]),
    // the last number is 1, and its own s7 is replaced
    (&["main", "a"], &[("x", "1"), ("x", "word"), ("s7", "9")]),
];

// Of the first record s20 is 8 + 19 * 3 = 65, the second s7 is 70, and s38 is 70 + 18 * 3 = 124. Of
// the second one they are 20, 20 and 38.
const CHAIN: [Case; 1] = [(
    "let s1=sum(x,y),s2=sum(s1,x),s3=sum(s2,x),s4=sum(s3,x),s5=sum(s4,x),s6=sum(s5,x),\
        s7=sum(s6,x),s8=sum(s7,x),s9=sum(s8,x),s10=sum(s9,x),s11=sum(s10,x),s12=sum(s11,x),\
        s13=sum(s12,x),s14=sum(s13,x),s15=sum(s14,x),s16=sum(s15,x),s17=sum(s16,x),\
        s18=sum(s17,x),s19=sum(s18,x),s20=sum(s19,x),s7=sum(s20,y),s21=sum(s7,x),\
        s22=sum(s21,x),s23=sum(s22,x),s24=sum(s23,x),s25=sum(s24,x),s26=sum(s25,x),\
        s27=sum(s26,x),s28=sum(s27,x),s29=sum(s28,x),s30=sum(s29,x),s31=sum(s30,x),\
        s32=sum(s31,x),s33=sum(s32,x),s34=sum(s33,x),s35=sum(s34,x),s36=sum(s35,x),\
        s37=sum(s36,x),s38=sum(s37,x),\
        t=first(w,s7,s38) aggregate sum(s38),sum(t),sum(s7) group by z",
    " sum#s38=162 sum#t=90 sum#s7=90;",
    " z sum#s38 sum#t sum#s7",
)];

#[test]
fn a_chain_seeks_its_own_results_and_the_last_of_a_name(rt: HostRuntime) {
    check(&rt, rt.alloc(), &RECORDS, &CHAIN);
}
